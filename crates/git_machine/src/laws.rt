//! What holds of the closure machine after every list of events. Each function is a law: its contract
//! says it.
ghost use Rattle.git_machine.specs.Laws.{EveryRunIsSound, QuietListsTheReach, ReachIsCounted};

use crate::Successors;

/// For every graph, first signature and list of enabled events, by any workers in any order: the listed
/// signatures are distinct and reached, each listed id is in exactly one of the queue, one hand and the
/// finished ids, and each finished one has all of its next listed.
pub fn every_run_is_sound<G: Successors>()
    ensures { (g : G) → EveryRunIsSound (G.next g) }
{}

/// Where nothing is queued and no worker has a hand after a list of enabled events, the listed signatures
/// are exactly those that are reached from the first.
pub fn quiet_lists_the_reach<G: Successors>()
    ensures { (g : G) → QuietListsTheReach (G.next g) }
{}

/// More than so many signatures are reached exactly where a list of all reached ones, each once, is longer.
pub fn reach_is_counted<G: Successors>()
    ensures { (g : G) → ReachIsCounted (G.next g) }
{}
