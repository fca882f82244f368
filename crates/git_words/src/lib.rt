//! The words of the command line: which commands they spell, and their reader.
//!
//! Nothing here takes memory.
#![tactic(auto)]

mod commands;
mod laws;
mod options;
mod reading;
mod settings;

pub use commands::{
    Command, STEPS, STEPS_UNSET, Sample, TABLE, TABLE_UNSET, WORKERS, WORKERS_UNSET,
};
pub use laws::{command_or_none, commands_are_in_range, one_command};
pub use reading::read_words;

#[cfg(test)]
mod tests;
