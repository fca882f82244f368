//! Lists of signatures that grow, and lists in order.
ghost use Rattle.std.specs.Prelude.{◌≡◌, ◌<◌, ◌≤◌, Err, List, OnOk, false, length};
ghost use Rattle.std.specs.List.{All, AllPairs, Contains};
ghost use Rattle.std.specs.List.Sorted.{IsPermutation};
ghost use Rattle.std.specs.Ordering.{is_lt};
ghost use Rattle.git_machine.specs.Signatures.{Signature, signature_cmp};
ghost use Rattle.git_machine.specs.Reach.{IsOnce};
ghost use Rattle.git_plain.specs.Closing.{IsGrown};

use git_machine::{CloseFault, Found, Sig};
use indexmap::IndexSet;

/// Lists those that aren't listed, in their order.
///
/// # Errors
///
/// `Full` where more than `cap` would be listed.
pub(crate) fn list_all(
    sigs: &mut IndexSet<Sig>,
    more: Vec<Sig>,
    cap: usize,
) -> Result<(), CloseFault>
    requires { IsOnce sigs.old.keys }
    ensures grown { OnOk result (IsGrown sigs.old.keys more.items sigs.new.keys) }
    ensures few { OnOk result (length sigs.old.keys ≤ cap → length sigs.new.keys ≤ cap) }
    ensures full { result ≡ Err CloseFault.Full → (part : List Signature) × All (Contains more.items) part × IsGrown sigs.old.keys part sigs.new.keys × (cap < length sigs.new.keys) }
{
    for sig in more {
        if sigs.insert(sig).is_err() {
            return Err(CloseFault::NoMemory);
        }
        if sigs.len() > cap {
            return Err(CloseFault::Full);
        }
    }
    Ok(())
}

/// What is found, in the order of signatures.
pub(crate) fn in_order<P>(mut found: Vec<Found<P>>) -> Vec<Found<P>>
    ensures same { IsPermutation found.items result.items }
    ensures sorted { AllPairs (λ a b. is_lt (signature_cmp b.sig a.sig) ≡ false) result.items }
{
    found.sort_unstable_by(|a, b| a.sig.cmp(&b.sig));
    found
}
