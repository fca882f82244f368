//! What holds of closures. Each function is a law: its contract says it.
ghost use Rattle.git_plain.specs.Laws.{OneListInOrder, EachReachIsListedOrExceeds};

use git_machine::Successors;

/// What is reached has one list in order.
pub fn one_list_in_order<G: Successors>()
    ensures { (g : G) → OneListInOrder (G.next g) }
{}

/// Where each reached signature has just one next, more than so many are reached, or a list in order of at
/// most so many has exactly what is reached.
pub fn each_reach_is_listed_or_exceeds<G: Successors>()
    ensures { (g : G) → EachReachIsListedOrExceeds (G.next g) }
{}
