//! Graphs that refuse memory to one of their expansions.
use git_base::NoMemory;
use git_crew::{OpenGate, close_over_with};
use git_machine::{CloseFault, Closed, Expansion, Sig, Successors};
use git_plain::close_over;
use std::alloc::Global;
use std::sync::atomic::{AtomicU64, Ordering};
use std::test::Fail;

/// The numbers from 0 to 9, each of which leads to the next, and 9 to 0. The expansion with this number, counted from 1,
/// is refused memory.
#[derive(Drop)]
struct Chain {
    refused: u64,
    expanded: AtomicU64,
}

impl Successors for Chain {
    ghost use Rattle.std.specs.Prelude.{◌≡◌, ◌+◌, ℕ, List, [], ◌∷◌, length, slice_index, nat_lt, if◌then◌else◌};
    ghost use Rattle.std.specs.List.{All};
    ghost use Rattle.std.proofs.Common.{sym, ◌∙◌, subst, refl};
    ghost use Rattle.std.proofs.lemmas.List.Elements.{All-cons, All-nil};

    type Payload = u64;

    ghost legal = { λ g s. length s ≡ 1 };

    ghost next = { λ g s ns. ns ≡ ((if nat_lt (slice_index s 0) 9 then slice_index s 0 + 1 else 0) ∷ []) ∷ [] };

    ghost payload = { λ g s n. slice_index s 0 ≡ n };

    ghost words = { λ _. 1 };

    ghost has_width = { λ g s legal. legal };

    ghost one_next = { λ g s a b legal p q. p ∙ sym q };

    ghost next_legal = { λ g s a legal p. let P : List ℕ → Type 0 = λ t. length t ≡ 1 in subst (All P) (sym p) (All-cons P ((if nat_lt (slice_index s 0) 9 then slice_index s 0 + 1 else 0) ∷ []) [] refl (All-nil P)) };

    fn width(&self) -> usize {
        1
    }

    fn expand(&self, alloc: Global, sig: &Sig) -> Result<Expansion<u64>, NoMemory> {
        let before = self.expanded.fetch_add(1, Ordering::SeqCst);
        if before.wrapping_add(1) == self.refused {
            return Err(NoMemory);
        }
        let n = sig.word(0);
        let following = if n < 9 { n + 1 } else { 0 };
        let mut next = Vec::new(alloc);
        next.push(Sig::of(alloc, &[following])?)?;
        Ok(Expansion { next, payload: n })
    }
}

/// A chain that nothing has expanded.
fn fresh_chain(refused: u64) -> Chain {
    Chain {
        refused,
        expanded: AtomicU64::new(0),
    }
}

/// Whether a closure found all ten, or was refused memory where that was to be.
fn ends(closed: Result<Closed<u64>, CloseFault>, refused: u64) -> bool {
    match closed {
        Ok(closed) => refused == 0 && closed.found.len() == 10,
        Err(fault) => refused > 0 && fault == CloseFault::NoMemory,
    }
}

#[test]
fn each_refused_expansion_is_answered(rt: HostRuntime) -> Result<(), Fail> {
    let root = Sig::of(rt.alloc(), &[0])?;
    for refused in 0..11 {
        let alone = close_over(rt.alloc(), &fresh_chain(refused), &root, 10);
        assert!(rt; ends(alone, refused), "expansion {refused} alone");
        for workers in [1, 2, 4] {
            let graph = fresh_chain(refused);
            let crew = close_over_with(&rt, rt.alloc(), &graph, &root, 10, workers, &OpenGate);
            assert!(rt; ends(crew, refused), "expansion {refused} of {workers}");
        }
    }
    Ok(())
}
