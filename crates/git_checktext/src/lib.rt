//! The text that a checker reads: an input, a listing and certificates, one directly after the other. What it says is
//! one, and bytes that are no such text have one answer, the first fault with its line in the whole text.
#![tactic(auto)]

mod counting;
pub mod laws;
mod limits;
mod reading;
mod refusals;
mod text;

pub use counting::count_lines;
pub use limits::TEXT_BYTES;
pub use reading::{TextReading, read, read_check_text};
pub use refusals::{certs_refusal, listing_refusal};
pub use text::CheckText;
