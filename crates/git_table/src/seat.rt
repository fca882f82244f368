//! The seat of a caller.
ghost use Rattle.std.specs.Prelude.{◌≡◌};
ghost use Rattle.git_table.specs.Stacks.{hand_taken, hand_hinted};

use crate::answers::{Hinted, Taken};
use crate::steps::TableSeat;
use git_limits::WORKERS;
use git_machine::Successors;
use std::marker::Model;

/// A caller's part in a frontier: what it has seen and finished, and the id in its hand. It keeps the
/// numbers of records that it drew and didn't publish.
#[derive(Drop)]
pub struct Seat<G: Successors> {
    pub(crate) raw: TableSeat<G>,
    pub(crate) spares: [u64; WORKERS],
    pub(crate) count: usize,
    pub(crate) hand: Option<u32>,
}

impl<G: Successors> Model for Seat<G> {
    ghost use Rattle.git_table.specs.Views.{SeatView, seat_code, post_view, IsSeat};

    ghost Value = { SeatView G };

    ghost coded = { seat_code G.code };

    ghost view = { λ s. post_view s.raw.table_id s.raw.me.0 };

    ghost invariant = { λ s. IsSeat G.legal s.raw s.spares s.count s.hand };
}

/// The hand after a take.
pub fn taken_hand(taken: Taken) -> Option<u32>
    ensures { result ≡ hand_taken taken }
{
    match taken {
        Taken::Work(id) => Some(id),
        Taken::NotYet | Taken::Quiet | Taken::Halted => None,
    }
}

/// The hand after a hint was taken.
pub fn hinted_hand(hinted: Hinted) -> Option<u32>
    ensures { result ≡ hand_hinted hinted }
{
    match hinted {
        Hinted::Work(id) => Some(id),
        Hinted::Gone => None,
    }
}
