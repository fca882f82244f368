//! The basis run: Buchberger's algorithm with a fixed order of steps, with its cofactors.
#![tactic(auto)]

mod derived;
mod deriver;
mod element;
mod fault;
mod laws;
mod leads;
mod machine;
mod pairs;
mod running;
mod step;
mod weights;

pub use element::RUN_DEGREE;
pub use fault::BasisFault;
pub use laws::{
    ended_runs_are_groebner_bases, members_are_sums_of_products, runs_stop_in_one_way,
    states_fix_their_steps, steps_are_textbook_steps,
};
pub use running::{Ended, eager_run, run};
pub use step::{Step, Trace};
