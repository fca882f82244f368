//! Looking through the lists of a state.
ghost use Rattle.std.specs.Prelude.{◌≡◌, ◌↔◌, ℕ, Bool, false, IsTrue, None, Some, slice_get, slice_index_or};
ghost use Rattle.std.specs.List.{All, Contains};
ghost use Rattle.git_machine.specs.States.{is_queued};

use crate::Sig;
use crate::place::Place;

/// Whether the signature is among these.
pub(crate) fn contains(sigs: &[Sig], x: &Sig) -> bool
    ensures { IsTrue result ↔ Contains sigs.now x.now }
{
    for s in sigs {
        if s.same(x) {
            return true;
        }
    }
    false
}

/// Whether each of the second is among the first.
pub(crate) fn contains_all(sigs: &[Sig], xs: &[Sig]) -> bool
    ensures { IsTrue result ↔ All (Contains sigs.now) xs.now }
{
    for x in xs {
        if !contains(sigs, x) {
            return false;
        }
    }
    true
}

/// The id in the hand of a worker, and none for a worker past the last.
pub(crate) fn hand_at(hands: &[Option<u32>], worker: u32) -> Option<u32>
    ensures { result ≡ slice_index_or hands.now worker None }
{
    let w = worker as usize;
    if w < hands.len() { hands[w] } else { None }
}

/// Whether the worker has a hand.
pub(crate) fn has_hand(hands: &[Option<u32>], worker: u32) -> bool
    ensures { IsTrue result ↔ ((id : ℕ) × (slice_index_or hands.now worker None ≡ Some id)) }
{
    match hand_at(hands, worker) {
        None => false,
        Some(_hand) => true,
    }
}

/// Whether the id is in the hand of the worker.
pub(crate) fn is_in_hand(hands: &[Option<u32>], worker: u32, id: u32) -> bool
    ensures { IsTrue result ↔ (slice_index_or hands.now worker None ≡ Some id) }
{
    match hand_at(hands, worker) {
        None => false,
        Some(hand) => hand == id,
    }
}

/// Whether the id is queued.
pub(crate) fn is_waiting(places: &[Place], id: u32) -> bool
    ensures { IsTrue result ↔ (slice_get places.now id ≡ Some Place.Queued) }
{
    let i = id as usize;
    i < places.len() && places[i] == Place::Queued
}

/// Whether no id is queued.
pub(crate) fn no_queued(places: &[Place]) -> bool
    ensures { IsTrue result ↔ ((id : ℕ) → is_queued (slice_get places.now id) ≡ false) }
{
    for place in places {
        if *place == Place::Queued {
            return false;
        }
    }
    true
}

/// Whether no worker has a hand.
pub(crate) fn no_hand(hands: &[Option<u32>]) -> bool
    ensures { IsTrue result ↔ ((worker : ℕ) → slice_index_or hands.now worker None ≡ None) }
{
    for hand in hands {
        if hand.is_some() {
            return false;
        }
    }
    true
}
