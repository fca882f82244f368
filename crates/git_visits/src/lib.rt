//! The visited table, as words that many callers share: its layout, what each caller knows, the rule that
//! holds between any two atomic steps, and a law for each kind of step. Stands on the closure machine, of
//! whose events the steps are; the calls of the table stand on it.
//!
//! Nothing here runs. The types say what the kit's table is to keep of a seat, and no value of a view is made.
#![tactic(auto)]

pub mod laws;
mod view;

pub use view::{
    Bounded, Drew, Finished, Halves, Key, Known, Looked, Lowered, Met, Never, Noted, Offered, Post,
    Probed, Quieted, Raised, Readied, Stopped, Stored, Took, Undrew, Visits, Work,
};
