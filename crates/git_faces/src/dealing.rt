//! The order in which masks are dealt out to threads.
ghost use Rattle.std.specs.Prelude.{All, IfOk};
ghost use Rattle.git_faces.specs.Dealing.{IsTask};

use git_base::NoMemory;
use std::alloc::Global;

/// The mask at a place of a list, and when it takes its turn.
#[derive(Clone, Copy, Debug, PartialEq, Eq, PartialOrd, Ord)]
pub(crate) struct Task {
    turn: u64,
    pub(crate) place: usize,
    pub(crate) mask: u16,
}

/// A turn for each mask. Masks of one number of variables are counted as they come, and the bits of the
/// count are reversed: so each half, quarter and eighth of the turns has its share of each number.
fn numbered(alloc: Global, masks: &[u16]) -> Result<Vec<Task>, NoMemory>
    ensures { IfOk result (λ v. All (IsTask masks.now) v.items) }
{
    // Each count begins one further than that of one variable more, which has fewer masks.
    let mut counts: [u64; 17] = [16, 15, 14, 13, 12, 11, 10, 9, 8, 7, 6, 5, 4, 3, 2, 1, 0];
    let mut out = Vec::new(alloc);
    for (place, mask) in masks.iter().enumerate() {
        let variables = (mask.count_ones() as usize).min(16);
        let turn = counts[variables].reverse_bits();
        counts[variables] = counts[variables].wrapping_add(1);
        out.push(Task {
            turn,
            place,
            mask: *mask,
        })?;
    }
    Ok(out)
}

/// The masks with their places, in such an order that each half, quarter and eighth of it has about as
/// many masks of each number of variables: a run is the longer, the more variables its face has.
pub(crate) fn dealt(alloc: Global, masks: &[u16]) -> Result<Vec<Task>, NoMemory>
    ensures { IfOk result (λ v. All (IsTask masks.now) v.items) }
{
    let mut tasks = numbered(alloc, masks)?;
    tasks.sort()?;
    Ok(tasks)
}
