//! Chambers of signatures, crossings of their walls, and the graph that they make.
#![tactic(auto)]

mod around;
mod cell;
mod crossing;
mod describing;
mod differing;
mod germs;
mod graph;
pub mod laws;
mod sums;
mod wall_lists;

pub use around::holding;
pub use cell::{Cell, Chamber, ChamberFault, Side};
pub use crossing::{behind, cross, first_negative, outside};
pub use describing::chamber;
pub use differing::difference;
pub use germs::{column_sum, crossing_germ, first_germ, weight_germ};
pub use graph::FanGraph;
pub use sums::{sum, wall_sum};
pub use wall_lists::{facets_of, walls};
