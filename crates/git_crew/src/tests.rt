//! Crews that close graphs whose reach is known.
ghost use Rattle.std.specs.Prelude.{◌≡◌, ◌+◌, ◌*◌, nat_lt, if◌then◌else◌};

use crate::{Gate, OpenGate, close_over_with};
use git_base::NoMemory;
use git_machine::{CloseFault, Closed, Expansion, Sig, Successors};
use git_plain::close_over;
use std::alloc::Global;
use std::sync::atomic::{AtomicU64, Ordering};
use std::test::Fail;
use std::thread::yield_now;

/// A number n below `inner` leads to `factor n + 1` and `factor n + factor`, and any other to 0. It has no
/// memory for the expansion of this number, counted from 1.
#[derive(Drop)]
struct Branches {
    factor: u8,
    inner: u32,
    refused: u64,
    expanded: AtomicU64,
}

/// With no refusal.
fn unrefused(factor: u8, inner: u32) -> Branches {
    Branches {
        factor,
        inner,
        refused: 0,
        expanded: AtomicU64::new(0),
    }
}

impl Branches {
    fn child(&self, n: u64, k: u8) -> u64
        ensures { result ≡ (if nat_lt n self.now.inner then self.now.factor * n + k else 0) }
    {
        if n < u64::from(self.inner) {
            u64::from(self.factor) * n + u64::from(k)
        } else {
            0
        }
    }
}

impl Successors for Branches {
    ghost use Rattle.std.specs.Prelude.{◌≡◌, ◌+◌, ◌*◌, ℕ, List, [], ◌∷◌, length, slice_index, nat_lt, if◌then◌else◌};
    ghost use Rattle.std.specs.List.{All};
    ghost use Rattle.std.proofs.Common.{sym, ◌∙◌, subst, refl};
    ghost use Rattle.std.proofs.lemmas.List.Elements.{All-cons, All-nil};

    type Payload = u64;

    ghost legal = { λ g s. length s ≡ 1 };

    ghost next = { λ g s ns. ns ≡ ((if nat_lt (slice_index s 0) g.inner then g.factor * slice_index s 0 + 1 else 0) ∷ []) ∷ ((if nat_lt (slice_index s 0) g.inner then g.factor * slice_index s 0 + g.factor else 0) ∷ []) ∷ [] };

    ghost payload = { λ g s n. slice_index s 0 ≡ n };

    ghost words = { λ _. 1 };

    ghost has_width = { λ g s legal. legal };

    ghost one_next = { λ g s a b legal p q. p ∙ sym q };

    ghost next_legal = { λ g s a legal p. let P : List ℕ → Type 0 = λ t. length t ≡ 1 in let x : List ℕ = (if nat_lt (slice_index s 0) g.inner then g.factor * slice_index s 0 + 1 else 0) ∷ [] in let y : List ℕ = (if nat_lt (slice_index s 0) g.inner then g.factor * slice_index s 0 + g.factor else 0) ∷ [] in subst (All P) (sym p) (All-cons P x (y ∷ []) refl (All-cons P y [] refl (All-nil P))) };

    fn width(&self) -> usize {
        1
    }

    fn expand(&self, alloc: Global, sig: &Sig) -> Result<Expansion<u64>, NoMemory> {
        let before = self.expanded.fetch_add(1, Ordering::SeqCst);
        if before.wrapping_add(1) == self.refused {
            return Err(NoMemory);
        }
        let n = sig.word(0);
        let mut next = Vec::new(alloc);
        next.push(Sig::of(alloc, &[self.child(n, 1)])?)?;
        next.push(Sig::of(alloc, &[self.child(n, self.factor)])?)?;
        Ok(Expansion { next, payload: n })
    }
}

/// Counts what enters.
#[derive(Drop)]
struct Count {
    entered: AtomicU64,
}

impl Gate for Count {
    fn enter(&self, _worker: u64, _id: u64) {
        self.entered.fetch_add(1, Ordering::SeqCst);
    }
}

/// Whether both closures have the same list.
fn same(a: &Closed<u64>, b: &Closed<u64>) -> bool {
    a.found.len() == b.found.len()
        && a.found
            .iter()
            .zip(b.found.iter())
            .all(|(f, g)| f.sig.same(&g.sig) && f.payload == g.payload)
}

#[test]
fn crews_give_the_list_of_one_thread(rt: HostRuntime) -> Result<(), Fail> {
    let graph = unrefused(2, 31);
    let root = Sig::of(rt.alloc(), &[0])?;
    let Ok(plain) = close_over(rt.alloc(), &graph, &root, 63) else {
        assert!(rt; false, "the plain closure is refused");
        return Ok(());
    };
    assert_eq!(rt; plain.found.len(), 63);
    for workers in [1, 2, 3, 4, 8, 16] {
        for round in 0..167 {
            let gate = Count {
                entered: AtomicU64::new(0),
            };
            match close_over_with(&rt, rt.alloc(), &graph, &root, 63, workers, &gate) {
                Ok(closed) => assert!(rt; same(&closed, &plain), "{workers} {round}"),
                Err(_fault) => assert!(rt; false, "{workers} {round} is refused"),
            }
            assert_eq!(rt;
                gate.entered.load(Ordering::SeqCst),
                63,
                "{workers} {round}"
            );
        }
    }
    Ok(())
}

/// Counts what enters, and what enters at another place than that of its number.
#[derive(Drop)]
struct Line {
    entered: AtomicU64,
    misplaced: AtomicU64,
}

impl Gate for Line {
    fn enter(&self, _worker: u64, id: u64) {
        let place = self.entered.fetch_add(1, Ordering::SeqCst);
        if place != id {
            self.misplaced.fetch_add(1, Ordering::SeqCst);
        }
    }
}

/// A worker that is alone takes ids as it found them. A scan for queued ids begins with the highest.
#[test]
fn hints_are_followed_in_order(rt: HostRuntime) -> Result<(), Fail> {
    let root = Sig::of(rt.alloc(), &[0])?;
    for (factor, inner, reached) in [(2, 31, 63), (1, 9, 10)] {
        let graph = unrefused(factor, inner);
        let gate = Line {
            entered: AtomicU64::new(0),
            misplaced: AtomicU64::new(0),
        };
        match close_over_with(&rt, rt.alloc(), &graph, &root, 63, 1, &gate) {
            Ok(closed) => assert_eq!(rt; closed.found.len(), reached),
            Err(_fault) => assert!(rt; false, "{reached} are refused"),
        }
        assert_eq!(rt; gate.entered.load(Ordering::SeqCst), reached as u64);
        assert_eq!(rt; gate.misplaced.load(Ordering::SeqCst), 0);
    }
    Ok(())
}

/// A gate at which each worker that enters an id from 15 on waits for the others, so many in all.
#[derive(Drop)]
struct Meeting {
    workers: u32,
    /// A bit for each worker that entered such an id.
    entered: AtomicU64,
}

impl Gate for Meeting {
    fn enter(&self, worker: u64, id: u64) {
        if id < 15 {
            return;
        }
        self.entered.fetch_or(1 << (worker % 64), Ordering::SeqCst);
        for _turn in 0..10_000_000 {
            if self.entered.load(Ordering::SeqCst).count_ones() >= self.workers {
                return;
            }
            yield_now();
        }
    }
}

/// As many workers expand at the same time as were asked for. Each of the first fifteen of this graph leads on,
/// or leads to eight others at least together, so that four can wait and none wants for an id.
#[test]
fn all_workers_meet(rt: HostRuntime) -> Result<(), Fail> {
    let graph = unrefused(2, 31);
    let root = Sig::of(rt.alloc(), &[0])?;
    for workers in [1, 2, 3, 4] {
        let gate = Meeting {
            workers,
            entered: AtomicU64::new(0),
        };
        match close_over_with(&rt, rt.alloc(), &graph, &root, 63, workers, &gate) {
            Ok(closed) => assert_eq!(rt; closed.found.len(), 63),
            Err(_fault) => assert!(rt; false, "{workers} workers are refused"),
        }
        assert_eq!(rt; gate.entered.load(Ordering::SeqCst), (1 << workers) - 1);
    }
    Ok(())
}

#[test]
fn a_reach_fits_or_is_full(rt: HostRuntime) -> Result<(), Fail> {
    // Workers, cap, how many are found or none where it is full.
    let rows = [
        (1, 63, Some(63)),
        (1, 62, None),
        (4, 63, Some(63)),
        // the table has room for all, but more than the cap are listed
        (4, 62, None),
        (4, 59, None),
        (4, 58, None),
        (8, 1, None),
    ];
    let graph = unrefused(2, 31);
    let root = Sig::of(rt.alloc(), &[0])?;
    for (workers, cap, expected) in rows {
        match close_over_with(&rt, rt.alloc(), &graph, &root, cap, workers, &OpenGate) {
            Ok(closed) => assert_eq!(rt; Some(closed.found.len()), expected, "{workers} {cap}"),
            Err(fault) => {
                assert_eq!(rt; fault, CloseFault::Full, "{workers} {cap}");
                assert_eq!(rt; None, expected, "{workers} {cap}");
            }
        }
    }
    Ok(())
}

#[test]
fn want_of_memory_stops_all(rt: HostRuntime) -> Result<(), Fail> {
    let root = Sig::of(rt.alloc(), &[0])?;
    for workers in [1, 2, 4] {
        // a chain of ten, which refuses none, or the expansion of this number
        for refused in 0..11 {
            let mut graph = unrefused(1, 9);
            graph.refused = refused;
            match close_over_with(&rt, rt.alloc(), &graph, &root, 10, workers, &OpenGate) {
                Ok(closed) => {
                    assert_eq!(rt; closed.found.len(), 10, "{workers} {refused}");
                    assert_eq!(rt; refused, 0, "{workers} {refused}");
                }
                Err(fault) => {
                    assert_eq!(rt; fault, CloseFault::NoMemory, "{workers} {refused}");
                    assert!(rt; refused > 0, "{workers} {refused}");
                }
            }
        }
    }
    Ok(())
}
