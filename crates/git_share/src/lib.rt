//! Hints of queued ids, by which the workers of a crew find work in constant time: a work-stealing deque for
//! each of them. Stands on the kit's deques; the crew stands on it.
//!
//! A hint promises nothing of its id. Whoever follows it has to see whether the id is queued.
#![tactic(auto)]

mod hints;
mod new;
mod rule;
mod thief;

pub use hints::Hints;

#[cfg(test)]
mod tests;
