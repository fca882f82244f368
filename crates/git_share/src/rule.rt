//! What the deque of a member is told, and what holds of it at every moment.
use crossbeam_deque::protocol::{Outcome, Protocol, Split};
use std::collections::LinkedList;

/// What a part in a deque knows. No value of it is made.
pub struct Told {
    /// The room of the ids, and 0 until it is told.
    pub room: u64,
    /// 1 while nobody else has a part in the deque.
    pub alone: u64,
    /// What the deque holds, as long as that is so.
    pub left: LinkedList<u32>,
}

/// The rule: each id is below the room.
pub struct Hinting;

impl Protocol<u32, Told> for Hinting {
    ghost use Rattle.git_share.specs.Hinting.{IsHinting, untold};

    ghost holds = { IsHinting };

    ghost first = { untold };

    ghost guest = { untold };
}

/// The room was told, by its highest id.
pub struct Opened;

impl Outcome<u32, Told> for Opened {
    ghost use Rattle.std.specs.Prelude.{◌≡◌};
    ghost use Rattle.git_share.specs.Hinting.{opened};

    ghost then = { λ v xs w. w ≡ opened xs };
}

/// A hint was put at the back.
pub struct Put;

impl Outcome<u32, Told> for Put {
    ghost use Rattle.std.specs.Prelude.{◌≡◌, ◌++◌};

    ghost then = { λ v xs w. w ≡ record v { left = v.left ++ xs } };
}

/// The member took a hint of its own.
pub struct Popped;

impl Outcome<u32, Told> for Popped {
    ghost use Rattle.std.specs.Prelude.{◌≡◌, []};
    ghost use Rattle.git_share.specs.Hinting.{IsLeft};

    ghost then = { IsLeft };

    ghost empty = { λ v. v.alone ≡ 1 → v.left ≡ [] };
}

/// Another member took a hint.
pub struct Stolen;

impl Outcome<u32, Told> for Stolen {
    ghost use Rattle.git_share.specs.Hinting.{IsLeft};

    ghost then = { IsLeft };
}

/// Another member gets a part in the deque.
pub struct Parted;

impl Split<Told> for Parted {
    ghost left = { λ v. record v { alone = 0 } };

    ghost right = { λ v. record v { alone = 0 } };
}
