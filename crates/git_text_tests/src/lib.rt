//! Tests of lines and of gradings. They stand in a crate above these, so that neither is proved a second time for
//! its tests.
#![tactic(auto)]

#[cfg(test)]
mod gradings;
#[cfg(test)]
mod lines;
