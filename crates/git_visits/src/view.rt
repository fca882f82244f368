//! What the table is told, and what a seat knows.
use atomic_table::{Join, Play, Split, TableRule};
use git_machine::{Sig, Successors};
use std::collections::LinkedList;
use std::marker::PhantomData;
use std::snapshot::Snapshot;

/// What the table is told when it is made.
pub struct Key<G> {
    /// The graph as it was then.
    pub graph: Snapshot<G>,
    /// The signature of id 0.
    pub first: Snapshot<Sig>,
    /// How many signatures may be published without `Full`.
    pub cap: u64,
    /// How many places the seats have.
    pub workers: u64,
    /// The words of a signature.
    pub width: u64,
    /// The hash words, one more than the records.
    pub hashes: u64,
}

impl<G> Drop for Key<G> {
    fn drop(self) {
        let Key {
            graph: _,
            first: _,
            cap: _,
            workers: _,
            width: _,
            hashes: _,
        } = self;
    }
}

/// What a seat has to do and has done. No value of it is made.
pub struct Work {
    /// The record that it published and didn't queue yet.
    pub fresh: Option<u64>,
    /// 1 where `LIVE` was raised for it.
    pub counted: u64,
    /// The record in its hand.
    pub hand: Option<u64>,
    /// 1 where `LIVE` is to be lowered for a finished record.
    pub owes: u64,
    /// The records that it finished.
    pub mine: LinkedList<u64>,
    /// 1 where it found `LIVE` at 0.
    pub quiet: u64,
    /// 1 where it set `STOP`.
    pub halted: u64,
}

/// What a seat knows. No value of it is made.
pub struct Known<G> {
    /// What its table was told.
    pub key: Key<G>,
    /// Its places.
    pub places: u64,
    /// The records that it drew and didn't publish, with their words.
    pub spares: LinkedList<(u64, Sig)>,
    /// 1 where it drew past the last record and didn't take that back yet.
    pub over: u64,
    /// 1 where it once drew past the last record.
    pub full: u64,
    /// Published records with their signatures.
    pub seen: LinkedList<(u64, Sig)>,
    /// Words that it read and that don't change any more.
    pub notes: LinkedList<(u64, u64)>,
    /// What it has to do and has done.
    pub work: Work,
    /// What its steps gave on which answers rest, the last first.
    pub looks: LinkedList<(u64, u64)>,
}

/// What a seat's view is. No value of it is made.
pub enum Post<G> {
    /// It was joined into another.
    Spent,
    /// What its caller knows.
    Held(Known<G>),
}

/// The rule of the table.
pub struct Visits<G> {
    graph: PhantomData<G>,
}

impl<G: Successors> TableRule<(), Post<G>, Key<G>> for Visits<G> {
    ghost use Rattle.git_visits.specs.Visits.{Ruled, opening_view};
    ghost use Rattle.git_visits.specs.declared.view.Post.TheVariants.{Held};

    ghost holds = { Ruled G.next };

    ghost first = { λ key. Held (opening_view key) };
}

/// A record number was drawn.
pub struct Drew;

impl<G> Play<(), Post<G>> for Drew {
    ghost use Rattle.git_visits.specs.Plays.{drew};

    ghost then = { drew };
}

/// A word of a spare record was written.
pub struct Stored;

impl<G> Play<(), Post<G>> for Stored {
    ghost use Rattle.git_visits.specs.Plays.{stored};

    ghost then = { stored };
}

/// A hash word was read.
pub struct Probed;

impl<G> Play<(), Post<G>> for Probed {
    ghost use Rattle.git_visits.specs.Plays.{probed};

    ghost then = { probed };
}

/// A word of a published record was read.
pub struct Noted;

impl<G> Play<(), Post<G>> for Noted {
    ghost use Rattle.git_visits.specs.Plays.{noted};

    ghost then = { noted };
}

/// A hash word was exchanged for the number of a spare.
pub struct Offered;

impl<G> Play<(), Post<G>> for Offered {
    ghost use Rattle.git_visits.specs.Plays.{offered};

    ghost then = { offered };
}

/// All words of a published record were read.
pub struct Met;

impl<G: Successors> Play<(), Post<G>> for Met {
    ghost use Rattle.git_visits.specs.Plays.{met};

    ghost then = { met G.next };
}

/// A draw was taken back.
pub struct Undrew;

impl<G> Play<(), Post<G>> for Undrew {
    ghost use Rattle.git_visits.specs.Plays.{undrew};

    ghost then = { undrew };
}

/// A published record was queued.
pub struct Readied;

impl<G> Play<(), Post<G>> for Readied {
    ghost use Rattle.git_visits.specs.Plays.{readied};

    ghost then = { readied };
}

/// A state word was exchanged from 1 to 2.
pub struct Took;

impl<G> Play<(), Post<G>> for Took {
    ghost use Rattle.git_visits.specs.Plays.{took};

    ghost then = { took };
}

/// A word was read on which an answer rests.
pub struct Looked;

impl<G> Play<(), Post<G>> for Looked {
    ghost use Rattle.git_visits.specs.Plays.{looked};

    ghost then = { looked };
}

/// The hand was finished.
pub struct Finished;

impl<G> Play<(), Post<G>> for Finished {
    ghost use Rattle.git_visits.specs.Plays.{finished};

    ghost then = { finished };
}

/// A published record was counted.
pub struct Raised;

impl<G> Play<(), Post<G>> for Raised {
    ghost use Rattle.git_visits.specs.Plays.{raised};

    ghost then = { raised };
}

/// A finished record is counted no more.
pub struct Lowered;

impl<G> Play<(), Post<G>> for Lowered {
    ghost use Rattle.git_visits.specs.Plays.{lowered};

    ghost then = { lowered };
}

/// `LIVE` was read.
pub struct Quieted;

impl<G> Play<(), Post<G>> for Quieted {
    ghost use Rattle.git_visits.specs.Plays.{quieted};

    ghost then = { quieted };
}

/// `STOP` was set.
pub struct Stopped;

impl<G> Play<(), Post<G>> for Stopped {
    ghost use Rattle.git_visits.specs.Plays.{stopped};

    ghost then = { stopped };
}

/// The places of a seat are few.
pub struct Bounded;

impl<G> Play<(), Post<G>> for Bounded {
    ghost use Rattle.git_visits.specs.Plays.{bounded};

    ghost then = { bounded };
}

/// What no step tells: it can't come.
pub struct Never;

impl<G> Play<(), Post<G>> for Never {
    ghost then = { λ st m n m'. ⊥ };
}

/// How a seat is cut in two, and how two are made one.
pub struct Halves;

impl<G> Split<Post<G>> for Halves {
    ghost use Rattle.git_visits.specs.Cuttings.{kept_half, given_half};

    ghost left = { kept_half };

    ghost right = { given_half };
}

impl<G> Join<Post<G>> for Halves {
    ghost use Rattle.git_visits.specs.Cuttings.{joined};
    ghost use Rattle.git_visits.specs.declared.view.Post.TheVariants.{Spent};

    ghost both = { joined };

    ghost spent = { Spent };
}
