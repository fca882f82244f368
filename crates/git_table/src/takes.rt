//! Records are taken and finished.
ghost use Rattle.std.specs.Prelude.{◌≡◌, ◌≢◌, ◌+◌, ◌-◌, ◌*◌, ◌<◌, ◌≤◌, ◌^◌, ℕ, List, [], ◌∷◌, length, min, None, Some};
ghost use Rattle.git_machine.specs.Signatures.{Signature};
ghost use Rattle.git_machine.specs.Reach.{LeadsTo};
ghost use Rattle.git_visits.specs.Visits.{HasSeen};
ghost use Rattle.git_visits.specs.Seats.{Holds, Rests};
ghost use Rattle.git_table.specs.Takes.{HintSays, StopSays, TakeSays};
ghost use Rattle.git_visits.specs.declared.view.Known.{Known};
ghost use Rattle.git_visits.specs.declared.view.Post.TheVariants.{Held};
ghost use Rattle.git_table.specs.Seats.{StaysSeat};

use crate::answers::{Hinted, Taken};
use crate::steps::{
    TableSeat, finish_word, look_word, lower_word, quiet_word, stop_word, take_word,
};
use crate::visited::Visited;
use git_machine::Successors;

fn within(bound: u64, records: usize) -> usize
    ensures { result ≡ min bound records }
{
    if bound < records as u64 {
        return bound as usize;
    }
    records
}

impl<G: Successors> Visited<G> {
    /// Takes this record, if it is queued.
    pub fn take_hint(&self, seat: &mut TableSeat<G>, id: u32) -> Hinted
        requires own { seat.old.table_id ≡ self.now.table.shared.table_id }
        requires inside { id < self.now.records }
        requires view { Holds seat.old (λ v. (v.key ≡ self.now.table.shared.key) × (v.work.hand ≡ None) × (v.work.owes ≡ 0)) }
        ensures own { StaysSeat seat.old seat.new }
        ensures told { (v : Known G) → seat.old.me.0 ≡ Held v → HintSays v seat.new.me.0 id result }
    {
        let found = take_word(&self.table.shared, seat, self.states + id as usize);
        if found == 1 {
            return Hinted::Work(id);
        }
        Hinted::Gone
    }

    /// Whether a seat told all to stop.
    pub fn stopped(&self, seat: &mut TableSeat<G>) -> bool
        requires own { seat.old.table_id ≡ self.now.table.shared.table_id }
        requires view { Holds seat.old (λ v. v.key ≡ self.now.table.shared.key) }
        ensures own { StaysSeat seat.old seat.new }
        ensures told { (v : Known G) → seat.old.me.0 ≡ Held v → StopSays v seat.new.me.0 result }
    {
        let last = self.states + self.records;
        look_word(&self.table.shared, seat, last + 1) == 1
    }

    /// Takes the highest record that it finds queued.
    pub fn take(&self, seat: &mut TableSeat<G>) -> Taken
        requires own { seat.old.table_id ≡ self.now.table.shared.table_id }
        requires view { Holds seat.old (λ v. (v.key ≡ self.now.table.shared.key) × (v.work.hand ≡ None) × (v.work.owes ≡ 0)) }
        ensures own { StaysSeat seat.old seat.new }
        ensures told { (v : Known G) → seat.old.me.0 ≡ Held v → TakeSays v seat.new.me.0 result }
    {
        let last = self.states + self.records;
        if look_word(&self.table.shared, seat, last + 1) == 1 {
            return Taken::Halted;
        }
        let bound = look_word(&self.table.shared, seat, 0);
        let top = within(bound, self.records);
        for k in 0..top {
            let id = top - 1 - k;
            if take_word(&self.table.shared, seat, self.states + id) == 1 {
                return Taken::Work(id as u32);
            }
        }
        if quiet_word(&self.table.shared, seat, last) == 0 {
            return Taken::Quiet;
        }
        Taken::NotYet
    }

    /// The hand is finished.
    pub fn finish(&self, seat: &mut TableSeat<G>, id: u32)
        requires own { seat.old.table_id ≡ self.now.table.shared.table_id }
        requires inside { id < self.now.records }
        requires view { Holds seat.old (λ v. (v.key ≡ self.now.table.shared.key) × Rests v × (v.work.hand ≡ Some id) × ((x : Signature) × HasSeen v id x × ((t : Signature) → LeadsTo (G.next v.key.graph.value) x t → (q : ℕ) × HasSeen v q t))) }
        ensures own { StaysSeat seat.old seat.new }
        ensures told { (v : Known G) → seat.old.me.0 ≡ Held v → seat.new.me.0 ≡ Held (record v { work = record v.work { hand = None; owes = 0; mine = id ∷ v.work.mine } }) }
    {
        finish_word(&self.table.shared, seat, self.states + id as usize);
        let live = self.states + self.records;
        lower_word(&self.table.shared, seat, live);
    }

    /// Tells all seats to stop.
    pub fn halt(&self, seat: &mut TableSeat<G>)
        requires own { seat.old.table_id ≡ self.now.table.shared.table_id }
        requires view { Holds seat.old (λ v. v.key ≡ self.now.table.shared.key) }
        ensures own { StaysSeat seat.old seat.new }
        ensures told { (v : Known G) → seat.old.me.0 ≡ Held v → seat.new.me.0 ≡ Held (record v { work = record v.work { halted = 1 } }) }
    {
        let last = self.states + self.records;
        stop_word(&self.table.shared, seat, last + 1);
    }
}
