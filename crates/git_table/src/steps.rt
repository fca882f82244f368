//! The frontier, and the steps of its seats.
ghost use Rattle.std.specs.Prelude.{◌≡◌, ◌≢◌, ◌+◌, ◌*◌, ◌<◌, ◌^◌, ℕ, List, [], ◌∷◌, IfOk, Some, None};
ghost use mathlib.Core.Option.{none};
ghost use Rattle.atomic_table.specs.Table.{step};
ghost use Rattle.git_machine.specs.Signatures.{Signature};
ghost use Rattle.git_visits.specs.Visits.{records, hash_at, record_at, state_at, live_at, stop_at, HasSeen, MayPublish};
ghost use Rattle.git_visits.specs.Plays.{bounded, drew, stored, probed, noted, offered, met, undrew, readied, took, looked, finished, raised, lowered, quieted, stopped};
ghost use Rattle.git_machine.specs.Reach.{LeadsTo};
ghost use Rattle.git_visits.specs.Seats.{Holds, ShowsPublished, Tried};
ghost use Rattle.git_table.specs.Seats.{IsSeatOf, IsStepSeat};

use atomic_table::{Seat, Shared, Table};
use git_machine::Successors;
use git_visits::{
    Bounded, Drew, Finished, Key, Looked, Lowered, Met, Never, Noted, Offered, Post, Probed,
    Quieted, Raised, Readied, Stopped, Stored, Took, Undrew, Visits,
};
use std::alloc::Global;

pub type TableSeat<G> = Seat<(), Post<G>>;

type Words<G> = Shared<(), Post<G>, Key<G>, Visits<G>>;

pub fn draw<G: Successors>(shared: &Words<G>, seat: &mut TableSeat<G>) -> u64
    requires own { IsSeatOf shared.now.table_id shared.now.key seat.old }
    requires view { Holds seat.old (λ v. (v.spares ≡ []) × (v.over ≡ 0)) }
    ensures same { IsStepSeat seat.old seat.new }
    ensures told { drew (step shared.now.table_id.slots 0 1 0 none) seat.old.me result seat.new.me }
{
    shared.fetch_add::<Drew>(seat, 0, 1)
}

pub fn probe_word<G: Successors>(shared: &Words<G>, seat: &mut TableSeat<G>, hash: usize) -> u64
    requires own { IsSeatOf shared.now.table_id shared.now.key seat.old }
    requires small { hash + 1 < shared.now.table_id.words }
    requires view { Holds seat.old (λ v. hash < v.key.hashes) }
    ensures same { IsStepSeat seat.old seat.new }
    ensures told { probed (step shared.now.table_id.slots (1 + hash) 0 0 none) seat.old.me result seat.new.me }
{
    shared.load::<Probed>(seat, 1 + hash)
}

pub fn store_word<G: Successors>(
    shared: &Words<G>,
    seat: &mut TableSeat<G>,
    start: usize,
    j: usize,
    word: u64,
)
    requires own { IsSeatOf shared.now.table_id shared.now.key seat.old }
    requires small { start + j < shared.now.table_id.words }
    requires view { Holds seat.old (λ v. (r : ℕ) × (xs : Signature) × (rest : List (ℕ × Signature)) × (v.spares ≡ (r, xs) ∷ rest) × (start ≡ record_at v.key r) × (j < v.key.width)) }
    ensures same { IsStepSeat seat.old seat.new }
    ensures told { stored (step shared.now.table_id.slots (start + j) word 0 none) seat.old.me word seat.new.me }
{
    shared.store::<Stored>(seat, start + j, word)
}

pub fn offer_word<G: Successors>(
    shared: &Words<G>,
    seat: &mut TableSeat<G>,
    hash: usize,
    number: u64,
) -> u64
    requires own { IsSeatOf shared.now.table_id shared.now.key seat.old }
    requires small { (hash + 1 < shared.now.table_id.words) × (number + 1 < 2 ^ 64) }
    requires view { Holds seat.old (λ v. (xs : Signature) × (rest : List (ℕ × Signature)) × MayPublish G.next v hash number xs rest) }
    ensures same { IsStepSeat seat.old seat.new }
    ensures told { offered (step shared.now.table_id.slots (1 + hash) 0 (number + 1) none) seat.old.me result seat.new.me }
{
    shared.compare_exchange::<Offered>(seat, 1 + hash, 0, number + 1)
}

pub fn note_word<G: Successors>(
    shared: &Words<G>,
    seat: &mut TableSeat<G>,
    start: usize,
    j: usize,
) -> u64
    requires own { IsSeatOf shared.now.table_id shared.now.key seat.old }
    requires small { start + j < shared.now.table_id.words }
    requires view { Holds seat.old (λ v. (q : ℕ) × ShowsPublished v q × (q < records v.key) × (start ≡ record_at v.key q) × (j < v.key.width)) }
    ensures same { IsStepSeat seat.old seat.new }
    ensures told { noted (step shared.now.table_id.slots (start + j) 0 0 none) seat.old.me result seat.new.me }
{
    shared.load::<Noted>(seat, start + j)
}

pub fn meet_word<G: Successors>(shared: &Words<G>, seat: &mut TableSeat<G>, word: usize)
    requires own { IsSeatOf shared.now.table_id shared.now.key seat.old }
    requires small { word < shared.now.table_id.words }
    requires view { Holds seat.old (λ v. (q : ℕ) × ShowsPublished v q × (q < records v.key) × (word ≡ state_at v.key q)) }
    ensures same { IsStepSeat seat.old seat.new }
    ensures told { (found : ℕ) × met G.next (step shared.now.table_id.slots word 0 0 none) seat.old.me found seat.new.me }
{
    shared.load::<Met>(seat, word);
}

pub fn undraw<G: Successors>(shared: &Words<G>, seat: &mut TableSeat<G>)
    requires own { IsSeatOf shared.now.table_id shared.now.key seat.old }
    requires view { Holds seat.old (λ v. v.over ≡ 1) }
    ensures same { IsStepSeat seat.old seat.new }
    ensures told { (found : ℕ) × undrew (step shared.now.table_id.slots 0 1 0 none) seat.old.me found seat.new.me }
{
    shared.fetch_sub::<Undrew>(seat, 0, 1);
}

/// This is never reached: some hash word is 0.
pub fn crowded<G: Successors>(shared: &Words<G>, seat: &mut TableSeat<G>)
    requires own { IsSeatOf shared.now.table_id shared.now.key seat.old }
    requires view { Holds seat.old (λ v. (x : Signature) × Tried v x v.key.hashes) }
    ensures { ⊥ }
{
    shared.load::<Never>(seat, 0);
}

/// Queues the fresh one.
pub fn ready_word<G: Successors>(shared: &Words<G>, seat: &mut TableSeat<G>, word: usize)
    requires own { IsSeatOf shared.now.table_id shared.now.key seat.old }
    requires small { word < shared.now.table_id.words }
    requires view { Holds seat.old (λ v. (r : ℕ) × (v.work.fresh ≡ Some r) × (v.work.counted ≡ 1) × (word ≡ state_at v.key r)) }
    ensures same { IsStepSeat seat.old seat.new }
    ensures told { readied (step shared.now.table_id.slots word 1 0 none) seat.old.me 1 seat.new.me }
{
    shared.store::<Readied>(seat, word, 1)
}

/// Takes a record, if it is queued.
pub fn take_word<G: Successors>(shared: &Words<G>, seat: &mut TableSeat<G>, word: usize) -> u64
    requires own { IsSeatOf shared.now.table_id shared.now.key seat.old }
    requires small { word < shared.now.table_id.words }
    requires view { Holds seat.old (λ v. (r : ℕ) × (r < records v.key) × (v.work.hand ≡ None) × (v.work.owes ≡ 0) × (word ≡ state_at v.key r)) }
    ensures same { IsStepSeat seat.old seat.new }
    ensures told { took (step shared.now.table_id.slots word 1 2 none) seat.old.me result seat.new.me }
{
    shared.compare_exchange::<Took>(seat, word, 1, 2)
}

/// Looks at a word.
pub fn look_word<G: Successors>(shared: &Words<G>, seat: &mut TableSeat<G>, word: usize) -> u64
    requires own { IsSeatOf shared.now.table_id shared.now.key seat.old }
    requires small { word < shared.now.table_id.words }
    requires view { Holds seat.old (λ v. v.key ≡ shared.now.key) }
    ensures same { IsStepSeat seat.old seat.new }
    ensures told { looked (step shared.now.table_id.slots word 0 0 none) seat.old.me result seat.new.me }
{
    shared.load::<Looked>(seat, word)
}

/// Finishes the hand.
pub fn finish_word<G: Successors>(shared: &Words<G>, seat: &mut TableSeat<G>, word: usize)
    requires own { IsSeatOf shared.now.table_id shared.now.key seat.old }
    requires small { word < shared.now.table_id.words }
    requires view { Holds seat.old (λ v. (r : ℕ) × (x : Signature) × (v.work.hand ≡ Some r) × (v.work.fresh ≡ None) × HasSeen v r x × ((t : Signature) → LeadsTo (G.next v.key.graph.value) x t → (q : ℕ) × HasSeen v q t) × (word ≡ state_at v.key r)) }
    ensures same { IsStepSeat seat.old seat.new }
    ensures told { finished (step shared.now.table_id.slots word 3 0 none) seat.old.me 3 seat.new.me }
{
    shared.store::<Finished>(seat, word, 3)
}

/// Counts the fresh one.
pub fn raise_word<G: Successors>(shared: &Words<G>, seat: &mut TableSeat<G>, word: usize)
    requires own { IsSeatOf shared.now.table_id shared.now.key seat.old }
    requires small { word < shared.now.table_id.words }
    requires view { Holds seat.old (λ v. (r : ℕ) × (v.work.fresh ≡ Some r) × (v.work.counted ≡ 0) × (word ≡ live_at v.key)) }
    ensures same { IsStepSeat seat.old seat.new }
    ensures told { (found : ℕ) × raised (step shared.now.table_id.slots word 1 0 none) seat.old.me found seat.new.me }
{
    shared.fetch_add::<Raised>(seat, word, 1);
}

/// Counts a finished one no more.
pub fn lower_word<G: Successors>(shared: &Words<G>, seat: &mut TableSeat<G>, word: usize)
    requires own { IsSeatOf shared.now.table_id shared.now.key seat.old }
    requires small { word < shared.now.table_id.words }
    requires view { Holds seat.old (λ v. (v.work.owes ≡ 1) × (word ≡ live_at v.key)) }
    ensures same { IsStepSeat seat.old seat.new }
    ensures told { (found : ℕ) × lowered (step shared.now.table_id.slots word 1 0 none) seat.old.me found seat.new.me }
{
    shared.fetch_sub::<Lowered>(seat, word, 1);
}

/// Looks whether anything is queued or in hand.
pub fn quiet_word<G: Successors>(shared: &Words<G>, seat: &mut TableSeat<G>, word: usize) -> u64
    requires own { IsSeatOf shared.now.table_id shared.now.key seat.old }
    requires small { word < shared.now.table_id.words }
    requires view { Holds seat.old (λ v. word ≡ live_at v.key) }
    ensures same { IsStepSeat seat.old seat.new }
    ensures told { quieted (step shared.now.table_id.slots word 0 0 none) seat.old.me result seat.new.me }
{
    shared.load::<Quieted>(seat, word)
}

/// Tells all to stop.
pub fn stop_word<G: Successors>(shared: &Words<G>, seat: &mut TableSeat<G>, word: usize)
    requires own { IsSeatOf shared.now.table_id shared.now.key seat.old }
    requires small { word < shared.now.table_id.words }
    requires view { Holds seat.old (λ v. word ≡ stop_at v.key) }
    ensures same { IsStepSeat seat.old seat.new }
    ensures told { stopped (step shared.now.table_id.slots word 1 0 none) seat.old.me 1 seat.new.me }
{
    shared.store::<Stopped>(seat, word, 1)
}

/// Looks that the places are few.
pub fn bound_word<G: Successors>(shared: &Words<G>, seat: &mut TableSeat<G>)
    requires own { IsSeatOf shared.now.table_id shared.now.key seat.old }
    requires view { Holds seat.old (λ v. Unit {0}) }
    ensures same { IsStepSeat seat.old seat.new }
    ensures told { (found : ℕ) × bounded (step shared.now.table_id.slots 0 0 0 none) seat.old.me found seat.new.me }
{
    shared.load::<Bounded>(seat, 0);
}
