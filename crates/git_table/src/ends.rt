//! Seats are cut and joined, and the frontier ends.
ghost use Rattle.std.specs.Prelude.{◌≡◌, ◌⊎◌, ◌+◌, ◌*◌, ◌<◌, ◌≤◌, ◌^◌, ℕ, List, [], ◌∷◌, length, IfOk, slice_index, None};
ghost use Rattle.std.specs.List.{All};
ghost use Rattle.std.specs.Vec.{vec_capacity};
ghost use Rattle.std.specs.Slots.{IsFull, slots_items, slots_len};
ghost use Rattle.git_machine.specs.Signatures.{Signature};
ghost use Rattle.git_visits.specs.Seats.{Holds};
ghost use Rattle.git_table.specs.Listings.{IsRoom, rows, sigs_in, Listing, Exceeds};
ghost use Rattle.git_visits.specs.declared.view.Known.{Known};
ghost use Rattle.git_visits.specs.declared.view.Post.TheVariants.{Held};
ghost use Rattle.git_visits.specs.Cuttings.{kept_half, given_half, joined};
ghost use Rattle.git_visits.specs.Lists.{cut, filled};
ghost use Rattle.git_table.specs.Seats.{StaysSeat};

use crate::steps::{TableSeat, bound_word};
use crate::visited::Visited;
use atomic_table::Closed;
use git_base::NoMemory;
use git_limits::WORKERS;
use git_machine::{Sig, Successors};
use git_visits::Halves;
use std::alloc::Global;

// For each of `count` signatures of this width an empty vector with room for its words.
fn rooms(alloc: Global, count: usize, width: usize) -> Result<Vec<Vec<u64>>, NoMemory>
    ensures { IfOk result (λ v. (length v.items ≡ count) × All (IsRoom width) v.items) }
{
    let mut rooms = Vec::with_capacity(alloc, count)?;
    for _r in 0..count {
        let room = Vec::with_capacity(alloc, width)?;
        rooms.push(room)?;
    }
    Ok(rooms)
}

// The memory of a listing: its vector, with room for `count` signatures, and a room for each.
fn memory(alloc: Global, count: usize, width: usize) -> Result<(Vec<Sig>, Vec<Vec<u64>>), NoMemory>
    ensures { IfOk result (λ m. (m.0.items ≡ []) × (count ≤ vec_capacity m.0) × ((length m.1.items ≡ count) × All (IsRoom width) m.1.items)) }
{
    let sigs = Vec::with_capacity(alloc, count)?;
    let rooms = rooms(alloc, count, width)?;
    Ok((sigs, rooms))
}

// The words from a place on, in an empty vector with room for them.
fn words_at(room: Vec<u64>, closed: &Closed<(), Global>, start: usize, width: usize) -> Vec<u64>
    requires full { IsFull closed.now.words }
    requires inside { (start + width ≤ slots_len closed.now.words) × (start + width < 2 ^ 40) }
    requires room { IsRoom width room }
    ensures { (length result.items ≡ width) × ((j : ℕ) → j < width → slice_index result.items j ≡ slice_index (slots_items closed.now.words) (start + j)) }
{
    let mut words = room;
    for j in 0..width {
        let Ok(()) = words.push(closed.word(start + j)) else {
            unreachable!()
        };
    }
    words
}

// The signature at a place.
fn sig_at(room: Vec<u64>, closed: &Closed<(), Global>, start: usize, width: usize) -> Sig
    requires full { IsFull closed.now.words }
    requires inside { (start + width ≤ slots_len closed.now.words) × (start + width < 2 ^ 40) }
    requires room { IsRoom width room }
    ensures { result ≡ cut (slots_items closed.now.words) start width }
{
    Sig::of_words(words_at(room, closed, start, width))
}

// How many records have a state.
fn counted(closed: &Closed<(), Global>, states: usize, records: usize) -> usize
    requires full { IsFull closed.now.words }
    requires inside { (states + records ≤ slots_len closed.now.words) × (states + records < 2 ^ 40) }
    ensures { result ≡ filled (cut (slots_items closed.now.words) states records) }
{
    let mut count = 0;
    for r in 0..records {
        if closed.word(states + r) != 0 {
            count += 1;
        }
    }
    count
}

// The signatures of the records that have a state, in the memory that was taken for them.
fn listed(
    memory: (Vec<Sig>, Vec<Vec<u64>>),
    closed: &Closed<(), Global>,
    states: usize,
    start: usize,
    width: usize,
    records: usize,
) -> Vec<Sig>
    requires full { IsFull closed.now.words }
    requires inside { (states ≡ start + records * width) × (states + records ≤ slots_len closed.now.words) × (states + records < 2 ^ 40) }
    requires memory { (memory.0.items ≡ []) × (length memory.1.items ≤ vec_capacity memory.0) × ((length memory.1.items ≡ filled (cut (slots_items closed.now.words) states records)) × All (IsRoom width) memory.1.items) }
    ensures { result.items ≡ sigs_in (rows (slots_items closed.now.words) states start width 0 records) }
{
    let (mut sigs, mut rooms) = memory;
    for r in 0..records {
        if closed.word(states + r) == 0 {
            continue;
        }
        let Some(room) = rooms.pop() else {
            unreachable!()
        };
        let sig = sig_at(room, closed, start + r * width, width);
        let Ok(()) = sigs.push(sig) else {
            unreachable!()
        };
    }
    sigs
}

impl<G: Successors> Visited<G> {
    pub fn split(&self, seat: &mut TableSeat<G>) -> TableSeat<G>
        requires own { seat.old.table_id ≡ self.now.table.shared.table_id }
        requires view { Holds seat.old (λ v. (1 < v.places) × (v.over ≡ 0)) }
        ensures kept { StaysSeat seat.old seat.new × (seat.new.me.0 ≡ kept_half seat.old.me.0) }
        ensures given { (result.table_id ≡ seat.old.table_id) × (result.me.1 ≡ []) × (result.me.0 ≡ given_half seat.old.me.0) }
    {
        self.table.shared.split_seat::<Halves>(seat)
    }

    pub fn join(&self, seat: &mut TableSeat<G>, other: TableSeat<G>)
        requires own { (seat.old.table_id ≡ self.now.table.shared.table_id) × (other.table_id ≡ self.now.table.shared.table_id) × (other.me.1 ≡ []) }
        requires view { Holds seat.old (λ v. (v.over ≡ 0) × ((v.work.hand ≡ None) × (v.work.owes ≡ 0))) × Holds other (λ v. (v.over ≡ 0) × ((v.work.hand ≡ None) × (v.work.owes ≡ 0))) }
        ensures { StaysSeat seat.old seat.new × (seat.new.me.0 ≡ joined seat.old.me.0 other.me.0) }
    {
        self.table.shared.join_seat::<Halves>(seat, other)
    }

    /// Looks that the seat's places are few.
    pub fn bound(&self, seat: &mut TableSeat<G>)
        requires own { seat.old.table_id ≡ self.now.table.shared.table_id }
        requires view { Holds seat.old (λ v. Unit {0}) }
        ensures own { StaysSeat seat.old seat.new }
        ensures told { (v : Known G) → seat.old.me.0 ≡ Held v → (seat.new.me.0 ≡ Held v) × (v.places ≤ WORKERS) × (length v.spares ≤ v.places) }
    {
        bound_word(&self.table.shared, seat);
    }

    /// How many signatures are published.
    pub fn count(self, seat: TableSeat<G>) -> usize
        requires own { seat.table_id ≡ self.table.shared.table_id }
        requires view { Holds seat (λ v. (v.key ≡ self.table.shared.key) × (((v.places ≡ v.key.workers) × (v.work.hand ≡ None)) ⊎ (v.work.quiet ≡ 1))) }
        ensures { (v : Known G) → seat.me.0 ≡ Held v → (rs : List (ℕ × Signature)) × (result ≡ length rs) × Listing G.next v rs }
    {
        let Visited {
            table,
            records,
            width: _,
            hashes: _,
            states,
        } = self;
        let closed = table.close_with(seat);
        let count = counted(&closed, states, records);
        closed.free();
        count
    }

    /// All published signatures. It takes memory for as many, before it reads the first.
    pub fn close(self, alloc: Global, seat: TableSeat<G>) -> Result<Vec<Sig>, NoMemory>
        requires own { seat.table_id ≡ self.table.shared.table_id }
        requires view { Holds seat (λ v. (v.key ≡ self.table.shared.key) × (((v.places ≡ v.key.workers) × (v.work.hand ≡ None)) ⊎ (v.work.quiet ≡ 1))) }
        ensures { (v : Known G) → seat.me.0 ≡ Held v → IfOk result (λ l. (rs : List (ℕ × Signature)) × (l.items ≡ sigs_in rs) × Listing G.next v rs) }
    {
        let Visited {
            table,
            records,
            width,
            hashes,
            states,
        } = self;
        let closed = table.close_with(seat);
        let Ok(memory) = memory(alloc, counted(&closed, states, records), width) else {
            closed.free();
            return Err(NoMemory);
        };
        let sigs = listed(memory, &closed, states, 1 + hashes, width, records);
        closed.free();
        Ok(sigs)
    }

    /// The end, after this seat was answered Full.
    pub fn end_full(self, seat: TableSeat<G>)
        requires own { seat.table_id ≡ self.table.shared.table_id }
        requires view { Holds seat (λ v. (v.key ≡ self.table.shared.key) × (v.full ≡ 1)) }
        ensures { (v : Known G) → seat.me.0 ≡ Held v → Exceeds G.next v }
    {
        let Visited {
            table,
            records: _,
            width: _,
            hashes: _,
            states: _,
        } = self;
        let closed = table.close_with(seat);
        closed.free();
    }
}
