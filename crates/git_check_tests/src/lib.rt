//! Tests of checking whole texts. They stand in a crate above, so that nothing is proved a second time for them.
#![tactic(auto)]

#[cfg(test)]
mod samples;
#[cfg(test)]
mod texts;
