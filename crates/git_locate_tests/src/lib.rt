//! Tests of weights: how they are read after an input, where they lie, and what is answered. They stand in a crate
//! above, so that nothing is proved a second time for them.
#![tactic(auto)]

#[cfg(test)]
mod answers;
#[cfg(test)]
mod texts;
