//! The seventeen kinds of steps. Each function is a law: whatever the other seats do, a step of this kind
//! keeps the rule, and is the event of the closure machine that is named here, enabled in the state that
//! the words and views show, or leaves what they show as it is.
ghost use Rattle.git_visits.specs.Laws.{DrawStays, StoreStays, ProbeStays, CompareMeets, PublishHappens, GiveBackStays, SplitStays, JoinStays, ReadyStays, TakeHappens, BoundStays, FinishHappens, RaiseStays, LowerStays, QuietHappens, StopStays, MarkMeansStop, StoppedStays};
ghost use Rattle.git_visits.specs.Runs.{OpeningShows, RunsAreShown};

use git_machine::Successors;

/// At its opening the table keeps the rule, and shows the closure machine at its opening.
pub fn opening<G: Successors>()
    ensures { OpeningShows G.next }
{}

/// After every list of steps from the opening, each by some seat and of one of the kinds below, the rule
/// holds, and the table shows what some list of enabled events of the closure machine leads to. So what
/// holds of the machine after each such list holds of what the table shows.
pub fn runs<G: Successors>()
    ensures { RunsAreShown G.next }
{}

/// A record number is drawn: `NEXT` grows by 1.
pub fn draw<G: Successors>()
    ensures { DrawStays G.next }
{}

/// A word of a spare record is written.
pub fn store<G: Successors>()
    ensures { StoreStays G.next }
{}

/// A hash word is read.
pub fn probe<G: Successors>()
    ensures { ProbeStays G.next }
{}

/// A word of a published record is read. It is the event Meet, where its signature is the next of the hand.
pub fn compare<G: Successors>()
    ensures { CompareMeets G.next }
{}

/// A hash word that is 0 becomes the number of a spare, plus 1. It is the event Publish, and where the word isn't 0 nothing.
pub fn publish<G: Successors>()
    ensures { PublishHappens G.next }
{}

/// A draw past the last record is taken back: `NEXT` falls by 1.
pub fn give_back<G: Successors>()
    ensures { GiveBackStays G.next }
{}

/// A seat is cut in two.
pub fn split<G: Successors>()
    ensures { SplitStays G.next }
{}

/// Two seats are made one.
pub fn join<G: Successors>()
    ensures { JoinStays G.next }
{}

/// The state word of a published record that is counted becomes 1.
pub fn ready<G: Successors>()
    ensures { ReadyStays G.next }
{}

/// A state word that is 1 becomes 2. It is the event Take, and where the word isn't 1 nothing.
pub fn take<G: Successors>()
    ensures { TakeHappens G.next }
{}

/// `NEXT` is read.
pub fn bound<G: Successors>()
    ensures { BoundStays G.next }
{}

/// The state word of the hand becomes 3. It is the event Finish.
pub fn finish<G: Successors>()
    ensures { FinishHappens G.next }
{}

/// A published record is counted: `LIVE` grows by 1.
pub fn raise<G: Successors>()
    ensures { RaiseStays G.next }
{}

/// A finished record is counted no more: `LIVE` falls by 1.
pub fn lower<G: Successors>()
    ensures { LowerStays G.next }
{}

/// `LIVE` is read. It is the event Quiet, where it is 0.
pub fn quiet<G: Successors>()
    ensures { QuietHappens G.next }
{}

/// `STOP` becomes 1.
pub fn stop<G: Successors>()
    ensures { StopStays G.next }
{}

/// `STOP` is 1 at every moment after a seat set it.
pub fn halted<G: Successors>()
    ensures { MarkMeansStop G.next }
{}

/// `STOP` is read.
pub fn stopped<G: Successors>()
    ensures { StoppedStays G.next }
{}
