//! The frontier, and the offer of a signature.
ghost use Rattle.std.specs.Prelude.{◌≡◌, ◌≢◌, ◌+◌, ◌*◌, ◌<◌, ◌≤◌, ◌^◌, ℕ, List, [], ◌∷◌, length, slice_set, MatchBool, MatchOption};
ghost use Rattle.git_machine.specs.Reach.{Reached};
ghost use mathlib.Core.Option.{none};
ghost use Rattle.atomic_table.specs.Table.{step};
ghost use Rattle.git_visits.specs.Visits.{word_count, records, hash_at, record_at, home_of, HasNote, HasSeen, RecordDiffers};
ghost use Rattle.git_visits.specs.declared.view.Known.{Known};
ghost use Rattle.git_visits.specs.declared.view.Post.TheVariants.{Held};
ghost use Rattle.git_visits.specs.Seats.{with_seen, Holds, ShowsPublished, Agrees, Extends};
ghost use Rattle.git_table.specs.Seats.{StaysSeat};

use crate::steps::{TableSeat, meet_word, note_word, probe_word};
use crate::visited::Visited;
use git_machine::{Sig, Successors};

fn put(out: &mut [u64], j: usize, word: u64)
    requires { j < length out.old }
    ensures { out.new ≡ slice_set out.old j word }
{
    out[j] = word;
}

impl<G: Successors> Visited<G> {
    /// Loads a hash word.
    pub fn look(&self, seat: &mut TableSeat<G>, hash: usize) -> u64
        requires own { seat.old.table_id ≡ self.now.table.shared.table_id }
        requires inside { hash < self.now.hashes }
        requires view { Holds seat.old (λ v. v.key ≡ self.now.table.shared.key) }
        ensures own { StaysSeat seat.old seat.new }
        ensures told { (v : Known G) → seat.old.me.0 ≡ Held v → Holds seat.new (λ w. Extends v w × (w.spares ≡ v.spares) × (result ≢ 0 → HasNote w (hash_at v.key hash) result × (result ≤ records v.key))) }
    {
        probe_word(&self.table.shared, seat, hash)
    }

    /// Says whether a published record has this signature.
    pub fn agrees(&self, seat: &mut TableSeat<G>, q: usize, sig: &Sig) -> bool
        requires own { seat.old.table_id ≡ self.now.table.shared.table_id }
        requires inside { q < self.now.records }
        requires sig { length sig.now ≡ self.now.width }
        requires view { Holds seat.old (λ v. (v.key ≡ self.now.table.shared.key) × ShowsPublished v q) }
        ensures own { StaysSeat seat.old seat.new }
        ensures told { (v : Known G) → seat.old.me.0 ≡ Held v → Holds seat.new (λ w. (w.spares ≡ v.spares) × MatchBool result (Extends (with_seen v q sig.now) w) (Extends v w × RecordDiffers w q sig.now)) }
    {
        let start = 1 + self.hashes + q * self.width;
        for j in 0..self.width {
            if note_word(&self.table.shared, seat, start, j) != sig.word(j) {
                return false;
            }
        }
        meet_word(&self.table.shared, seat, self.states + q);
        true
    }

    /// Reads the signature of a published record.
    pub fn read(&self, seat: &mut TableSeat<G>, q: usize, out: &mut [u64])
        requires own { seat.old.table_id ≡ self.now.table.shared.table_id }
        requires inside { (q < self.now.records) × (length out.old ≡ self.now.width) }
        requires view { Holds seat.old (λ v. (v.key ≡ self.now.table.shared.key) × ShowsPublished v q) }
        ensures own { StaysSeat seat.old seat.new }
        ensures long { length out.new ≡ self.now.width }
        ensures told { (v : Known G) → seat.old.me.0 ≡ Held v → Holds seat.new (λ w. Extends (with_seen v q out.new) w × (w.spares ≡ v.spares) × Reached (G.next v.key.graph.value) v.key.first.value out.new) }
    {
        let start = 1 + self.hashes + q * self.width;
        for j in 0..self.width {
            let word = note_word(&self.table.shared, seat, start, j);
            put(out, j, word);
        }
        meet_word(&self.table.shared, seat, self.states + q);
    }
}
