//! Graphs whose reach is known.
use crate::close_over;
use git_base::NoMemory;
use git_machine::{CloseFault, Expansion, Sig, Successors};
use std::alloc::Global;
use std::test::Fail;

/// One word leads to the next number, up to the last, and the last one to a number of its own.
#[derive(Drop)]
struct Walk {
    last: u64,
    back: u64,
}

impl Successors for Walk {
    ghost use Rattle.std.specs.Prelude.{◌≡◌, ◌+◌, ℕ, List, [], ◌∷◌, length, slice_index, nat_lt, if◌then◌else◌};
    ghost use Rattle.std.specs.List.{All};
    ghost use Rattle.std.proofs.Common.{sym, ◌∙◌, subst, refl};
    ghost use Rattle.std.proofs.lemmas.List.Elements.{All-cons, All-nil};

    type Payload = u64;

    ghost legal = { λ g s. length s ≡ 1 };

    ghost next = { λ g s ns. ns ≡ ((if nat_lt (slice_index s 0) g.last then slice_index s 0 + 1 else g.back) ∷ []) ∷ [] };

    ghost payload = { λ g s n. slice_index s 0 ≡ n };

    ghost words = { λ _. 1 };

    ghost has_width = { λ g s legal. legal };

    ghost one_next = { λ g s a b legal p q. p ∙ sym q };

    ghost next_legal = { λ g s a legal p. let P : List ℕ → Type 0 = λ t. length t ≡ 1 in subst (All P) (sym p) (All-cons P ((if nat_lt (slice_index s 0) g.last then slice_index s 0 + 1 else g.back) ∷ []) [] refl (All-nil P)) };

    fn width(&self) -> usize {
        1
    }

    fn expand(&self, alloc: Global, sig: &Sig) -> Result<Expansion<u64>, NoMemory> {
        let n = sig.word(0);
        let following = if n < self.last { n + 1 } else { self.back };
        let mut next = Vec::new(alloc);
        next.push(Sig::of(alloc, &[following])?)?;
        Ok(Expansion { next, payload: n })
    }
}

#[test]
fn what_is_reached_is_found_in_order(rt: HostRuntime) -> Result<(), Fail> {
    // First, last, where the last leads, and the numbers of the reach in the order of their sets of bits.
    let rows: [(u64, u64, u64, &[u64]); 5] = [
        // one that leads to itself
        (0, 0, 0, &[0]),
        // a chain of ten, whose last leads to itself: 9 is 0 and 3, before 1 as a prefix goes first
        (0, 9, 9, &[0, 1, 3, 7, 5, 9, 2, 6, 4, 8]),
        // a cycle
        (0, 3, 0, &[0, 1, 3, 2]),
        // a cycle behind a chain
        (1, 4, 2, &[1, 3, 2, 4]),
        // a first that stands at the end
        (4, 4, 4, &[4]),
    ];
    for (first, last, back, expected) in rows {
        let walk = Walk { last, back };
        let root = Sig::of(rt.alloc(), &[first])?;
        match close_over(rt.alloc(), &walk, &root, 10) {
            Ok(closed) => {
                assert_eq!(rt; closed.found.len(), expected.len(), "{first} {last} {back}");
                for (found, number) in closed.found.iter().zip(expected) {
                    assert_eq!(rt; found.payload, *number, "{first} {last} {back}");
                    assert_eq!(rt; found.sig.words(), [*number].as_slice());
                }
            }
            Err(_fault) => assert!(rt; false, "{first} {last} {back} is refused"),
        }
    }
    Ok(())
}

#[test]
fn a_reach_fits_or_is_full(rt: HostRuntime) -> Result<(), Fail> {
    // Last, cap, how many are found or none where it is full.
    let rows = [
        (9, 10, Some(10)),
        (9, 9, None),
        (65_535, 65_536, Some(65_536)),
        (65_535, 65_535, None),
    ];
    let root = Sig::of(rt.alloc(), &[0])?;
    for (last, cap, expected) in rows {
        let walk = Walk { last, back: 0 };
        match close_over(rt.alloc(), &walk, &root, cap) {
            Ok(closed) => assert_eq!(rt; Some(closed.found.len()), expected, "{last} {cap}"),
            Err(fault) => {
                assert_eq!(rt; fault, CloseFault::Full, "{last} {cap}");
                assert_eq!(rt; None, expected, "{last} {cap}");
            }
        }
    }
    Ok(())
}
