//! Signatures on words of known bits, and small runs of the machine.
use git_base::NoMemory;
use git_machine::{Event, Expansion, Sig, State, StepFault, Successors};
use std::alloc::Global;
use std::cmp::Ordering;
use std::test::Fail;

#[test]
fn a_signature_has_the_numbers_of_its_bits(rt: HostRuntime) -> Result<(), Fail> {
    let sig = Sig::of(rt.alloc(), &[1 << 63, 3])?;
    for n in [63u32, 64, 65] {
        assert!(rt; sig.has(n), "{n} is in the set");
    }
    for n in [0u32, 62, 66, 127, 128, 4_000_000_000] {
        assert!(rt; !sig.has(n), "{n} is not in the set");
    }
    assert_eq!(rt; sig.width(), 2);
    assert_eq!(rt; sig.word(1), 3);
    assert_eq!(rt; sig.words(), [1u64 << 63, 3].as_slice());
    Ok(())
}

#[test]
fn signatures_are_ordered_by_their_numbers(rt: HostRuntime) -> Result<(), Fail> {
    // Each row: words of two signatures, the first of which is before the second.
    let rows: [([u64; 2], [u64; 2]); 6] = [
        // no numbers before all others
        ([0, 0], [1, 0]),
        // 0 and 5 before 0 and 6
        ([33, 0], [65, 0]),
        // 0 and 64 before 1, though its words are greater
        ([1, 1], [2, 0]),
        // 0 before 0 and 64, a proper prefix
        ([1, 0], [1, 1]),
        // 63 and 64 before 64
        ([1 << 63, 1], [0, 1]),
        // 0 and 127 before 1
        ([1, 1 << 63], [2, 0]),
    ];
    for (first, second) in rows {
        let a = Sig::of(rt.alloc(), &first)?;
        let b = Sig::of(rt.alloc(), &second)?;
        assert_eq!(rt; a.cmp(&b), Ordering::Less, "{first:?} {second:?}");
        assert_eq!(rt; b.cmp(&a), Ordering::Greater, "{first:?} {second:?}");
        assert_eq!(rt; a.cmp(&a), Ordering::Equal);
        assert!(rt; !a.same(&b));
        assert!(rt; a.same(&a.copied(rt.alloc())?));
        assert!(rt; a.same(&Sig::of_words(a.words().to_vec(rt.alloc())?)));
    }
    let narrow = Sig::of(rt.alloc(), &[5])?;
    let wide = Sig::of(rt.alloc(), &[5, 0])?;
    assert_eq!(rt; narrow.cmp(&wide), Ordering::Less);
    assert!(rt; narrow < wide && narrow != wide);
    Ok(())
}

/// One word leads to the next number, and the last one to 0.
#[derive(Drop)]
struct Ring {
    last: u64,
}

impl Successors for Ring {
    ghost use Rattle.std.specs.Prelude.{◌≡◌, ◌+◌, ℕ, List, [], ◌∷◌, length, slice_index, nat_lt, if◌then◌else◌};
    ghost use Rattle.std.specs.List.{All};
    ghost use Rattle.std.proofs.Common.{sym, ◌∙◌, subst, refl};
    ghost use Rattle.std.proofs.lemmas.List.Elements.{All-cons, All-nil};

    type Payload = u64;

    ghost legal = { λ g s. length s ≡ 1 };

    ghost next = { λ g s ns. ns ≡ ((if nat_lt (slice_index s 0) g.last then slice_index s 0 + 1 else 0) ∷ []) ∷ [] };

    ghost payload = { λ g s n. slice_index s 0 ≡ n };

    ghost words = { λ _. 1 };

    ghost has_width = { λ g s legal. legal };

    ghost one_next = { λ g s a b legal p q. p ∙ sym q };

    ghost next_legal = { λ g s a legal p. let P : List ℕ → Type 0 = λ t. length t ≡ 1 in subst (All P) (sym p) (All-cons P ((if nat_lt (slice_index s 0) g.last then slice_index s 0 + 1 else 0) ∷ []) [] refl (All-nil P)) };

    fn width(&self) -> usize {
        1
    }

    fn expand(&self, alloc: Global, sig: &Sig) -> Result<Expansion<u64>, NoMemory> {
        let n = sig.word(0);
        let following = if n < self.last { n + 1 } else { 0 };
        let mut next = Vec::new(alloc);
        next.push(Sig::of(alloc, &[following])?)?;
        Ok(Expansion { next, payload: n })
    }
}

/// The kinds of events, as the table below has them.
#[derive(Clone, Copy)]
enum Kind {
    Publish,
    Meet,
    Take,
    Finish,
    Quiet,
}

/// The event of a row: for a publish the number is that of the signature, and else the id.
fn event(alloc: Global, kind: Kind, worker: u32, number: u32) -> Result<Event, NoMemory> {
    Ok(match kind {
        Kind::Publish => Event::Publish {
            worker,
            sig: Sig::of(alloc, &[number as u64])?,
        },
        Kind::Meet => Event::Meet { worker, id: number },
        Kind::Take => Event::Take { worker, id: number },
        Kind::Finish => Event::Finish { worker, id: number },
        Kind::Quiet => Event::Quiet,
    })
}

/// Steps with the list that the graph gives, and says whether the event was enabled.
fn step(alloc: Global, state: &mut State<Ring>, event: Event) -> Result<bool, NoMemory> {
    let next = state.next_for(alloc, &event)?;
    match state.step(next.as_slice(), event) {
        Ok(()) => Ok(true),
        Err(StepFault::NotEnabled) => Ok(false),
        Err(StepFault::NoMemory) => Err(NoMemory),
    }
}

#[test]
fn events_happen_where_they_are_enabled(rt: HostRuntime) -> Result<(), Fail> {
    let alloc = rt.alloc();
    // Kind, worker, number, whether it is enabled: two workers on 0, which leads to 1, which leads to 0.
    let rows = [
        (Kind::Quiet, 0, 0, false),
        // no such worker, no such id
        (Kind::Take, 2, 0, false),
        (Kind::Take, 0, 1, false),
        (Kind::Take, 0, 0, true),
        (Kind::Take, 1, 0, false),
        (Kind::Quiet, 0, 0, false),
        // its next isn't listed
        (Kind::Finish, 0, 0, false),
        // no hand, not in its next
        (Kind::Publish, 1, 1, false),
        (Kind::Publish, 0, 0, false),
        (Kind::Publish, 0, 1, true),
        (Kind::Publish, 0, 1, false),
        (Kind::Meet, 0, 1, true),
        // not in its next
        (Kind::Meet, 0, 0, false),
        (Kind::Finish, 0, 0, true),
        (Kind::Take, 1, 1, true),
        (Kind::Meet, 1, 0, true),
        // the hand of the other worker
        (Kind::Finish, 0, 1, false),
        (Kind::Finish, 1, 1, true),
        (Kind::Quiet, 0, 0, true),
    ];
    let ring = Ring { last: 1 };
    let root = Sig::of(alloc, &[0])?;
    let mut state = State::new(alloc, &ring, &root, 2)?;
    let mut row = 0u32;
    for (kind, worker, number, enabled) in rows {
        let next = event(alloc, kind, worker, number)?;
        assert_eq!(rt; step(alloc, &mut state, next)?, enabled, "row {row}");
        row = row.wrapping_add(1);
    }
    assert!(rt; state.is_idle());
    assert_eq!(rt; state.count(), 2);
    Ok(())
}

/// A signature that leads nowhere.
#[derive(Drop)]
struct Alone;

impl Successors for Alone {
    ghost use Rattle.std.specs.Prelude.{◌≡◌, ℕ, List, [], length};
    ghost use Rattle.std.specs.List.{All};
    ghost use Rattle.std.proofs.Common.{sym, ◌∙◌, subst};
    ghost use Rattle.std.proofs.lemmas.List.Elements.{All-nil};

    type Payload = ();

    ghost legal = { λ g s. length s ≡ 1 };

    ghost next = { λ g s ns. ns ≡ [] };

    ghost payload = { λ g s n. Unit {0} };

    ghost words = { λ _. 1 };

    ghost has_width = { λ g s legal. legal };

    ghost one_next = { λ g s a b legal p q. p ∙ sym q };

    ghost next_legal = { λ g s a legal p. let P : List ℕ → Type 0 = λ t. length t ≡ 1 in subst (All P) (sym p) (All-nil P) };

    fn width(&self) -> usize {
        1
    }

    fn expand(&self, alloc: Global, _sig: &Sig) -> Result<Expansion<()>, NoMemory> {
        Ok(Expansion {
            next: Vec::new(alloc),
            payload: (),
        })
    }
}

#[test]
fn a_machine_is_quiet_when_its_root_is_finished(rt: HostRuntime) -> Result<(), Fail> {
    let root = Sig::of(rt.alloc(), &[7])?;
    let mut state = State::new(rt.alloc(), &Alone, &root, 1)?;
    assert_eq!(rt; state.step(&[], Event::Quiet), Err(StepFault::NotEnabled));
    assert_eq!(rt; state.step(&[], Event::Take { worker: 0, id: 0 }), Ok(()));
    let event = Event::Finish { worker: 0, id: 0 };
    let next = state.next_for(rt.alloc(), &event)?;
    assert_eq!(rt; next.len(), 0);
    assert_eq!(rt; state.step(next.as_slice(), event), Ok(()));
    assert_eq!(rt; state.step(&[], Event::Quiet), Ok(()));
    assert_eq!(rt; state.count(), 1);
    assert!(rt; root.same(&root));
    Ok(())
}
