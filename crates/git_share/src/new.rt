//! Members at the start.
ghost use Rattle.std.specs.Prelude.{◌≡◌, ◌⊎◌, ◌+◌, ◌<◌, ◌≤◌, ℕ, [], length, IfOk, OnOk, Some};
ghost use Rattle.std.specs.List.{All};
ghost use Rattle.crossbeam_deque.specs.Handles.{view, IsPassOf, worker_deque};
ghost use Rattle.git_share.specs.Views.{IsNew, IsThief};

use crate::Hints;
use crate::rule::{Opened, Parted, Popped};
use crate::thief::Thief;
use crossbeam_deque::Worker;
use git_base::NoMemory;
use std::alloc::Global;

// The slots of a deque at the start, of which the first one is used up by telling the room.
fn slots(room: u32) -> usize
    requires { 1 ≤ room }
    ensures { (2 ≤ result) × ((room + 1 ≤ result) ⊎ (1024 ≤ result)) }
{
    if room < 1023 { room as usize + 1 } else { 1024 }
}

// A member that is alone.
fn lone(alloc: Global, room: u32) -> Result<Hints, NoMemory>
    requires { 1 ≤ room }
    ensures new { IfOk result (λ h. IsNew room h) }
    ensures alone { IfOk result (λ h. h.queue ≡ Some []) }
{
    let mut own = Worker::fifo_as(alloc, slots(room))?;
    let Ok(()) = own.push_as::<Opened>(room - 1) else {
        unreachable!()
    };
    let Some(_highest) = own.pop_as::<Popped>() else {
        unreachable!()
    };
    let capacity = own.capacity() as u64 - 1;
    Ok(Hints {
        own,
        others: Vec::new(alloc),
        room,
        pushed: 0,
        capacity,
    })
}

// So many members, each alone.
fn lones(alloc: Global, members: usize, room: u32) -> Result<Vec<Hints>, NoMemory>
    requires { 1 ≤ room }
    ensures long { IfOk result (λ l. length l.items ≡ members) }
    ensures new { IfOk result (λ l. All (IsNew room) l.items) }
    ensures alone { IfOk result (λ l. All (λ h. h.queue ≡ Some []) l.items) }
{
    let mut all = Vec::with_capacity(alloc, members)?;
    for _member in 0..members {
        let one = lone(alloc, room)?;
        all.push(one)?;
    }
    Ok(all)
}

impl Hints {
    // A part in this member's deque.
    fn part(&mut self) -> Result<Thief, NoMemory>
        ensures kept { (room : ℕ) → IsNew room self.old → IsNew room self.new }
        ensures part { IfOk result (IsThief self.old.room) }
    {
        let stealer = self.own.stealer()?;
        let pass = self.own.another::<Parted>();
        Ok(Thief { stealer, pass })
    }

    // The member may take from that deque too.
    fn follow(&mut self, thief: Thief) -> Result<(), NoMemory>
        requires { IsThief self.old.room thief }
        ensures { (room : ℕ) → IsNew room self.old → IsNew room self.new }
    {
        self.others.push(thief)?;
        Ok(())
    }
}

// This member gets a part in the deque of each other one, first in that of the member after it.
fn meet(all: &mut Vec<Hints>, room: u32, member: usize) -> Result<(), NoMemory>
    requires all { All (IsNew room) all.old.items }
    requires inside { (member < length all.old.items) × (length all.old.items ≤ 64) }
    ensures { OnOk result (All (IsNew room) all.new.items × (length all.new.items ≡ length all.old.items)) }
{
    for step in 1..all.len() {
        let other = (member + step) % all.len();
        let thief = all[other].part()?;
        all[member].follow(thief)?;
    }
    Ok(())
}

impl Hints {
    /// So many members with no hints, each of which may take the hints of all. `members` is from 1 to 64, and
    /// the ids are below `room`, which is from 1 to 65,600.
    ///
    /// # Errors
    ///
    /// `NoMemory` where there isn't enough memory for a deque for each, or for the parts in them.
    pub fn new(alloc: Global, members: usize, room: u32) -> Result<Vec<Hints>, NoMemory>
        requires members { (1 ≤ members) × (members ≤ 64) }
        requires room { (1 ≤ room) × (room ≤ 65600) }
        ensures long { IfOk result (λ l. length l.items ≡ members) }
        ensures new { IfOk result (λ l. All (IsNew room) l.items) }
        ensures alone { IfOk result (λ l. members ≡ 1 → All (λ h. h.queue ≡ Some []) l.items) }
    {
        let mut all = lones(alloc, members, room)?;
        if members == 1 {
            return Ok(all);
        }
        for member in 0..members {
            meet(&mut all, room, member)?;
        }
        Ok(all)
    }
}
