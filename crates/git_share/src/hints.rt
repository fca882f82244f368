//! A member's hints.
ghost use Rattle.std.specs.Prelude.{◌≡◌, ◌⊎◌, ◌+◌, ◌-◌, ◌<◌, ◌≤◌, ◌^◌, ℕ, List, [], ◌∷◌, ◌++◌, min, false, IsTrue, IfSome, MatchOption, Some, if◌then◌else◌};

use crate::rule::{Hinting, Popped, Put, Told};
use crate::thief::{Thief, steal_any};
use crossbeam_deque::Worker;
use std::alloc::Global;
use std::marker::Model;

/// The hints of one member of a crew, from which the other members may steal.
#[derive(Drop)]
pub struct Hints {
    pub(crate) own: Worker<u32, Global, Told, Hinting>,
    pub(crate) others: Vec<Thief>,
    pub(crate) room: u32,
    pub(crate) pushed: u64,
    pub(crate) capacity: u64,
}

impl Model for Hints {
    ghost use Rattle.crossbeam_deque.specs.Handles.{worker_flavor, worker_view, worker_index, worker_capacity};
    ghost use Rattle.git_share.specs.Views.{HintsView, hints_code, queue_of, IsHints};

    ghost Value = { HintsView };

    ghost coded = { hints_code };

    ghost view = { λ h. record { room = h.room; pushed = h.pushed; capacity = h.capacity; queue = queue_of (worker_view h.own) h.others.items } };

    ghost invariant = { λ h. IsHints (worker_flavor h.own) (worker_view h.own) (worker_index h.own) (worker_capacity h.own) h.others.items h.room h.pushed h.capacity };
}

impl Hints {
    /// Puts the hint of an id at the back. It is refused, and dropped, only where at least `capacity` pushes
    /// were made before: there was no memory for it.
    pub fn push(&mut self, id: u32) -> bool
        requires { id < self.old.room }
        ensures kept { (self.new.room ≡ self.old.room) × (self.new.capacity ≡ self.old.capacity) }
        ensures counted { self.new.pushed ≡ min (self.old.pushed + 1) (2 ^ 64 - 1) }
        ensures refused { result ≡ false → self.old.capacity ≤ self.old.pushed }
        ensures queue { (q : List ℕ) → self.old.queue ≡ Some q → self.new.queue ≡ Some (if result then q ++ id ∷ [] else q) }
    {
        if self.pushed == u64::MAX {
            return false;
        }
        self.pushed += 1;
        self.own.push_as::<Put>(id).is_ok()
    }

    /// The next hint: the first of its own, or else one look at each of the others' deques.
    ///
    /// Of a member that is alone it is the first, and none only where it has none. Where there are others,
    /// each of them may have taken what was there.
    pub fn next(&mut self) -> Option<u32>
        ensures kept { (self.new.room ≡ self.old.room) × (self.new.capacity ≡ self.old.capacity) × (self.new.pushed ≡ self.old.pushed) }
        ensures low { IfSome result (λ id. id < self.old.room) }
        ensures queue { (q : List ℕ) → self.old.queue ≡ Some q → MatchOption result ((q ≡ []) × (self.new.queue ≡ Some [])) (λ id. (rest : List ℕ) × (q ≡ id ∷ rest) × (self.new.queue ≡ Some rest)) }
    {
        if let Some(id) = self.own.pop_as::<Popped>() {
            return Some(id);
        }
        steal_any(&mut self.others, self.room)
    }
}
