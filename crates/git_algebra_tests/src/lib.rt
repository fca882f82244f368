//! Tests of polynomials, of division and of runs. They stand in a crate above these, so that none of them is
//! proved a second time for its tests.
#![tactic(auto)]

#[cfg(test)]
mod division;
#[cfg(test)]
mod polynomials;
#[cfg(test)]
mod runs;
