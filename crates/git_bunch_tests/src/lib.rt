//! Tests of bunches, of the answers by them and of the numbers of cones. They stand in a crate above, so that nothing is
//! proved a second time for them.
#![tactic(auto)]

#[cfg(test)]
mod bunches;
