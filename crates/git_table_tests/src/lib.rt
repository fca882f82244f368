//! Tests of the closure machine and of the table. They stand in a crate above these, so that neither is proved a
//! second time for its tests.
#![tactic(auto)]

#[cfg(test)]
mod machine;
#[cfg(test)]
mod table;
