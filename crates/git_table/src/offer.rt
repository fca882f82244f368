//! The offer of a signature.
ghost use Rattle.std.specs.Prelude.{◌≡◌, ◌≢◌, ◌+◌, ◌*◌, ◌%◌, ◌<◌, ◌≤◌, ◌^◌, ℕ, List, [], ◌∷◌, length, MatchOption, Some, None};
ghost use Rattle.git_machine.specs.Signatures.{Signature};
ghost use Rattle.git_visits.specs.Visits.{records, hash_at, home_of, probe, HasNote, HasSeen, MayPublish};
ghost use Rattle.git_visits.specs.Lists.{tail_of};
ghost use Rattle.git_visits.specs.Seats.{with_look, with_seen, Holds, Extends, Led, Tried, SpareIs, SpareHeld, SpareLeft, DrewOver, Rests};
ghost use Rattle.git_table.specs.Offers.{TurnSays, OfferSays};
ghost use Rattle.git_visits.specs.declared.view.Known.{Known};
ghost use Rattle.git_visits.specs.declared.view.Post.TheVariants.{Held};
ghost use Rattle.git_table.specs.Seats.{StaysSeat};

use crate::answers::{Offer, Turn};
use crate::start::home;
use crate::steps::{
    TableSeat, crowded, draw, offer_word, raise_word, ready_word, store_word, undraw,
};
use crate::visited::Visited;
use git_machine::{Sig, Successors};

impl<G: Successors> Visited<G> {
    /// Writes a signature into the front spare.
    fn fill(&self, seat: &mut TableSeat<G>, number: usize, sig: &Sig)
        requires own { seat.old.table_id ≡ self.now.table.shared.table_id }
        requires inside { (number < self.now.records) × (length sig.now ≡ self.now.width) }
        requires view { Holds seat.old (λ v. (xs : Signature) × (v.key ≡ self.now.table.shared.key) × (length xs ≡ v.key.width) × (v.spares ≡ (number, xs) ∷ tail_of v.spares)) }
        ensures own { StaysSeat seat.old seat.new }
        ensures told { (v : Known G) → seat.old.me.0 ≡ Held v → Holds seat.new (λ w. Extends v w × (w.spares ≡ (number, sig.now) ∷ tail_of v.spares)) }
    {
        let start = 1 + self.hashes + number * self.width;
        for j in 0..self.width {
            store_word(&self.table.shared, seat, start, j, sig.word(j));
        }
    }

    /// Draws a record and writes the signature into it. None where there is no record.
    fn spare(&self, seat: &mut TableSeat<G>, sig: &Sig) -> Option<u64>
        requires own { seat.old.table_id ≡ self.now.table.shared.table_id }
        requires inside { length sig.now ≡ self.now.width }
        requires view { Holds seat.old (λ v. (v.key ≡ self.now.table.shared.key) × (v.spares ≡ []) × (v.over ≡ 0)) }
        ensures own { StaysSeat seat.old seat.new }
        ensures told { (v : Known G) → seat.old.me.0 ≡ Held v → MatchOption result (Holds seat.new (λ w. DrewOver v w × (v.spares ≡ []))) (λ n. (n < records v.key) × Holds seat.new (λ w. Extends v w × (w.spares ≡ (n, sig.now) ∷ tail_of v.spares))) }
    {
        let number = draw(&self.table.shared, seat);
        if number >= self.records as u64 {
            undraw(&self.table.shared, seat);
            return None;
        }
        self.fill(seat, number as usize, sig);
        Some(number)
    }

    /// The exchange of a hash word.
    fn publish(&self, seat: &mut TableSeat<G>, hash: usize, number: u64) -> u64
        requires own { seat.old.table_id ≡ self.now.table.shared.table_id }
        requires inside { (hash < self.now.hashes) × (number < self.now.records) }
        requires view { Holds seat.old (λ v. (v.key ≡ self.now.table.shared.key) × ((xs : Signature) × MayPublish G.next v hash number xs (tail_of v.spares))) }
        ensures own { StaysSeat seat.old seat.new }
        ensures hit { (v : Known G) (xs : Signature) → seat.old.me.0 ≡ Held v → v.spares ≡ (number, xs) ∷ tail_of v.spares → result ≡ 0 → Holds seat.new (λ w. Extends (with_look (with_seen v number xs) (hash_at v.key hash) 0) w × (w.spares ≡ tail_of v.spares)) }
        ensures miss { (v : Known G) (xs : Signature) → seat.old.me.0 ≡ Held v → v.spares ≡ (number, xs) ∷ tail_of v.spares → result ≢ 0 → Holds seat.new (λ w. Extends v w × (w.spares ≡ v.spares) × HasNote w (hash_at v.key hash) result × (result ≤ records v.key)) }
    {
        let found = offer_word(&self.table.shared, seat, hash, number);
        if found != 0 {
            return found;
        }
        self.announce(seat, number as usize);
        found
    }

    /// Counts the fresh one, and then queues it.
    fn announce(&self, seat: &mut TableSeat<G>, number: usize)
        requires own { seat.old.table_id ≡ self.now.table.shared.table_id }
        requires inside { number < self.now.records }
        requires view { Holds seat.old (λ v. (v.key ≡ self.now.table.shared.key) × (v.work.fresh ≡ Some number) × (v.work.counted ≡ 0)) }
        ensures own { StaysSeat seat.old seat.new }
        ensures told { (v : Known G) → seat.old.me.0 ≡ Held v → seat.new.me.0 ≡ Held (record v { work = record v.work { fresh = None; counted = 0 } }) }
    {
        let live = self.states + self.records;
        raise_word(&self.table.shared, seat, live);
        ready_word(&self.table.shared, seat, self.states + number);
    }

    /// A spare that holds the signature.
    fn ready(&self, seat: &mut TableSeat<G>, spare: Option<u64>, sig: &Sig) -> Option<u64>
        requires own { seat.old.table_id ≡ self.now.table.shared.table_id }
        requires inside { length sig.now ≡ self.now.width }
        requires view { Holds seat.old (λ v. (v.key ≡ self.now.table.shared.key) × (v.over ≡ 0) × SpareIs v spare sig.now) }
        ensures own { StaysSeat seat.old seat.new }
        ensures told { (v : Known G) → seat.old.me.0 ≡ Held v → MatchOption result (Holds seat.new (λ w. DrewOver v w × (v.spares ≡ []))) (λ n. (n < records v.key) × Holds seat.new (λ w. Extends v w × (w.spares ≡ (n, sig.now) ∷ tail_of v.spares))) }
    {
        match spare {
            Some(number) => Some(number),
            None => self.spare(seat, sig),
        }
    }

    /// One probe.
    fn turn(&self, seat: &mut TableSeat<G>, spare: Option<u64>, k: usize, sig: &Sig) -> Turn
        requires own { seat.old.table_id ≡ self.now.table.shared.table_id }
        requires inside { (length sig.now ≡ self.now.width) × (k < self.now.hashes) }
        requires view { Holds seat.old (λ v. (v.key ≡ self.now.table.shared.key) × Rests v × SpareIs v spare sig.now × Tried v sig.now k × Led G.next v sig.now) }
        ensures own { StaysSeat seat.old seat.new }
        ensures told { (v : Known G) → seat.old.me.0 ≡ Held v → Holds seat.new (λ w. TurnSays v w sig.now k result) }
    {
        let hash = (home(sig, self.hashes) + k) % self.hashes;
        let found = self.look(seat, hash);
        if found != 0 {
            return Turn::Taken(found, spare);
        }
        let Some(number) = self.ready(seat, spare, sig) else {
            return Turn::Full;
        };
        let found = self.publish(seat, hash, number);
        if found == 0 {
            return Turn::Published(number);
        }
        Turn::Taken(found, Some(number))
    }

    /// Writes the signature into the spare, if there is one.
    fn refill(&self, seat: &mut TableSeat<G>, spare: Option<u64>, sig: &Sig)
        requires own { seat.old.table_id ≡ self.now.table.shared.table_id }
        requires sig { length sig.now ≡ self.now.width }
        requires view { Holds seat.old (λ v. (v.key ≡ self.now.table.shared.key) × SpareHeld v spare) }
        ensures own { StaysSeat seat.old seat.new }
        ensures told { (v : Known G) → seat.old.me.0 ≡ Held v → Holds seat.new (λ w. Extends v w × SpareIs w spare sig.now × (tail_of w.spares ≡ tail_of v.spares)) }
    {
        match spare {
            Some(number) => self.fill(seat, number as usize, sig),
            None => {}
        }
    }

    /// Publishes the signature, unless it is published. Beside the answer it gives the spare that is left.
    pub fn offer(
        &self,
        seat: &mut TableSeat<G>,
        spare: Option<u64>,
        sig: &Sig,
    ) -> (Offer, Option<u64>)
        requires own { seat.old.table_id ≡ self.now.table.shared.table_id }
        requires sig { length sig.now ≡ self.now.width }
        requires view { Holds seat.old (λ v. (v.key ≡ self.now.table.shared.key) × Rests v × SpareHeld v spare × Led G.next v sig.now) }
        ensures own { StaysSeat seat.old seat.new }
        ensures told { (v : Known G) → seat.old.me.0 ≡ Held v → Holds seat.new (λ w. OfferSays v w sig.now result.0 × SpareLeft v w result.1) }
    {
        self.refill(seat, spare, sig);
        let mut spare = spare;
        for k in 0..self.hashes {
            match self.turn(seat, spare, k, sig) {
                Turn::Published(number) => return (Offer::New(number as u32), None),
                Turn::Full => return (Offer::Full, None),
                Turn::Taken(found, left) => {
                    if self.agrees(seat, found as usize - 1, sig) {
                        return (Offer::Seen((found - 1) as u32), left);
                    }
                    spare = left;
                }
            }
        }
        crowded(&self.table.shared, seat);
        unreachable!()
    }
}
