//! Tests of all faces of chambers, of the verdict whether they form a fan, and of what is answered of them. They stand in
//! a crate above, so that nothing is proved a second time for them.
#![tactic(auto)]

#[cfg(test)]
mod chambers;
#[cfg(test)]
mod faces;
