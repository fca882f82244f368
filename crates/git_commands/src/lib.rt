//! The commands, each a call over a source and a sink.
#![tactic(auto)]

mod answering;
mod calls;
mod faces;
mod sampling;

pub use calls::{
    bunch_run, cones_run, faces_run, fan_crew, fan_plain, locate_run, make_run, write_text,
};
