//! Tests of double descriptions, of cones, of orbit cones and of chambers. They stand in a crate above these, so
//! that none of them is proved a second time for its tests.
#![tactic(auto)]

#[cfg(test)]
mod canonical;
#[cfg(test)]
mod chambers;
#[cfg(test)]
mod descriptions;
#[cfg(test)]
mod orbits;
