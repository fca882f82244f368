//! A member's part in the deque of another.
ghost use Rattle.std.specs.Prelude.{◌≡◌, ◌<◌, [], IfSome, IsNone};
ghost use Rattle.std.specs.List.{All};
ghost use Rattle.git_share.specs.Views.{IsThief};

use crate::rule::{Hinting, Stolen, Told};
use crossbeam_deque::{Pass, Steal, Stealer};
use std::alloc::Global;

/// Takes hints at the front of another member's deque.
#[derive(Drop)]
pub struct Thief {
    pub stealer: Stealer<u32, Global, Told, Hinting>,
    pub pass: Pass<u32, Told>,
}

impl Thief {
    // One look. None where the deque was empty, or where somebody else took the hint in front.
    fn steal(&mut self, room: u32) -> Option<u32>
        requires { IsThief room self.old }
        ensures kept { IsThief room self.new }
        ensures low { IfSome result (λ id. id < room) }
    {
        match self.stealer.steal_as::<Stolen>(&mut self.pass) {
            Steal::Success(id) => Some(id),
            Steal::Empty | Steal::Retry => None,
        }
    }
}

/// One look at each of the deques, until one gives a hint.
pub fn steal_any(thieves: &mut Vec<Thief>, room: u32) -> Option<u32>
    requires { All (IsThief room) thieves.old.items }
    ensures kept { All (IsThief room) thieves.new.items }
    ensures low { IfSome result (λ id. id < room) }
    ensures none { thieves.old.items ≡ [] → (thieves.new.items ≡ []) × IsNone result }
{
    for i in 0..thieves.len() {
        if let Some(id) = thieves[i].steal(room) {
            return Some(id);
        }
    }
    None
}
