//! Callers of a frontier, one by one and at once. No function but those that make threads has a bound:
//! they make each call of the frontier but `close_full`, so none of these can wait.
ghost use Rattle.std.specs.Prelude.{◌≡◌, ◌<◌, ◌≤◌, ◌+◌, ℕ, List, true, false, IfOk, length, IsTrue};
ghost use Rattle.std.specs.List.{All, Contains};
ghost use Rattle.git_machine.specs.Signatures.{Signature};
ghost use Rattle.git_table.specs.Calls.{IsOf, Sees, room, first_seat};
ghost use Rattle.git_table_tests.specs.Spokes.{spokes, HasHand, IsCaller};

use git_base::NoMemory;
use git_machine::{Expansion, Sig, Successors};
use git_table::{Frontier, Hinted, Listed, Offer, Seat, Taken};
use std::alloc::Global;
use std::test::Fail;
use std::thread::{Threads, for_each_mut};

/// Each number leads to the numbers from 1 to the last.
#[derive(Drop)]
struct Star {
    last: u64,
}

impl Successors for Star {
    ghost use Rattle.std.specs.Prelude.{◌≡◌, ℕ, length};
    ghost use Rattle.std.proofs.Common.{sym, ◌∙◌, subst};
    ghost use Rattle.std.specs.List.{All};
    ghost use Rattle.git_machine.specs.Signatures.{Signature};
    ghost use Rattle.git_table_tests.specs.Spokes.{spokes, spokes_wide};

    type Payload = ();

    ghost legal = { λ g s. length s ≡ 1 };

    ghost next = { λ g s ns. ns ≡ spokes g.last };

    ghost payload = { λ g s n. Unit {0} };

    ghost words = { λ _. 1 };

    ghost has_width = { λ g s legal. legal };

    ghost one_next = { λ g s a b legal p q. p ∙ sym q };

    ghost next_legal = { λ g s a legal p. subst (All (λ (t : Signature). length t ≡ 1)) (sym p) (spokes_wide g.last) };

    fn width(&self) -> usize {
        1
    }

    fn expand(&self, alloc: Global, _sig: &Sig) -> Result<Expansion<()>, NoMemory> {
        let mut next = Vec::new(alloc);
        for i in 0..self.last {
            next.push(Sig::of(alloc, &[i + 1])?)?;
        }
        Ok(Expansion { next, payload: () })
    }
}

/// A seat, and whether it has a hand.
#[derive(Drop)]
struct Caller {
    seat: Seat<Star>,
    busy: bool,
}

/// What a call answered, or that it isn't to be made.
#[derive(Clone, Copy, Debug, PartialEq, Eq)]
enum Said {
    Work(u32),
    NotYet,
    Quiet,
    Halted,
    Gone,
    New(u32),
    Seen(u32),
    Full,
    Done,
    Refused,
}

/// Takes, and reads what it took.
fn take(frontier: &Frontier<Star>, caller: &mut Caller) -> Said
    requires { IsCaller frontier.now caller.old.seat caller.old.busy }
    ensures { IsCaller frontier.now caller.new.seat caller.new.busy }
{
    if caller.busy {
        return Said::Refused;
    }
    match frontier.take(&mut caller.seat) {
        Taken::Work(id) => {
            frontier.read(&mut caller.seat, id, &mut [0]);
            caller.busy = true;
            Said::Work(id)
        }
        Taken::NotYet => Said::NotYet,
        Taken::Quiet => Said::Quiet,
        Taken::Halted => Said::Halted,
    }
}

/// Takes this id, and reads what it took.
fn hint(frontier: &Frontier<Star>, caller: &mut Caller, id: u32) -> Said
    requires { IsCaller frontier.now caller.old.seat caller.old.busy × (id < room frontier.now) }
    ensures { IsCaller frontier.now caller.new.seat caller.new.busy }
{
    if caller.busy {
        return Said::Refused;
    }
    match frontier.take_hint(&mut caller.seat, id) {
        Hinted::Work(id) => {
            frontier.read(&mut caller.seat, id, &mut [0]);
            caller.busy = true;
            Said::Work(id)
        }
        Hinted::Gone => Said::Gone,
    }
}

/// Offers a number to which each leads.
fn offer(
    alloc: Global,
    frontier: &Frontier<Star>,
    star: &Star,
    caller: &mut Caller,
    number: u64,
) -> Result<Said, NoMemory>
    requires caller { IsCaller frontier.now caller.old.seat caller.old.busy }
    requires star { frontier.now.graph ≡ star.now }
    ensures { IsCaller frontier.now caller.new.seat caller.new.busy }
{
    if !caller.busy || number == 0 || number > star.last {
        return Ok(Said::Refused);
    }
    let sig = Sig::of(alloc, &[number])?;
    Ok(match frontier.offer(&mut caller.seat, &sig) {
        Offer::New(id) => Said::New(id),
        Offer::Seen(id) => Said::Seen(id),
        Offer::Full => Said::Full,
    })
}

/// Offers all to which the hand leads.
fn offer_all(
    alloc: Global,
    frontier: &Frontier<Star>,
    star: &Star,
    seat: &mut Seat<Star>,
) -> Result<bool, NoMemory>
    requires caller { IsCaller frontier.now seat.old true }
    requires star { frontier.now.graph ≡ star.now }
    ensures caller { IsCaller frontier.now seat.new true }
    ensures seen { IfOk result (λ all. IsTrue all → (x : Signature) → Contains (spokes star.now.last) x → (q : ℕ) × Sees seat.new q x) }
{
    for i in 0..star.last {
        let sig = Sig::of(alloc, &[i + 1])?;
        match frontier.offer(seat, &sig) {
            Offer::Full => return Ok(false),
            Offer::New(_id) => continue,
            Offer::Seen(_id) => continue,
        }
    }
    Ok(true)
}

/// Offers all to which the hand leads, and finishes it.
fn finish(
    alloc: Global,
    frontier: &Frontier<Star>,
    star: &Star,
    caller: &mut Caller,
) -> Result<Said, NoMemory>
    requires caller { IsCaller frontier.now caller.old.seat caller.old.busy }
    requires star { frontier.now.graph ≡ star.now }
    ensures { IsCaller frontier.now caller.new.seat caller.new.busy }
{
    if !caller.busy {
        return Ok(Said::Refused);
    }
    let all = offer_all(alloc, frontier, star, &mut caller.seat)?;
    if !all {
        return Ok(Said::Full);
    }
    frontier.finish(&mut caller.seat);
    caller.busy = false;
    Ok(Said::Done)
}

/// Takes and finishes until nothing is left, so many ids are finished, or there is a fault.
fn work(alloc: Global, frontier: &Frontier<Star>, star: &Star, most: u64, caller: &mut Caller)
    requires caller { IsCaller frontier.now caller.old.seat caller.old.busy }
    requires star { frontier.now.graph ≡ star.now }
    ensures { IsCaller frontier.now caller.new.seat caller.new.busy }
{
    let mut finished = 0u64;
    for _round in 0..1_000_000_000u64 {
        if finished == most {
            return;
        }
        match take(frontier, caller) {
            Said::Work(_) => match finish(alloc, frontier, star, caller) {
                Ok(Said::Done) => finished = finished.wrapping_add(1),
                _ => return,
            },
            Said::NotYet => {}
            _ => return,
        }
    }
}

/// What a row of a table does.
#[derive(Clone, Copy)]
enum Step {
    Take,
    Hint(u32),
    Offer(u64),
    Finish,
    Halt,
}

fn say(
    alloc: Global,
    frontier: &Frontier<Star>,
    star: &Star,
    ids: u32,
    caller: &mut Caller,
    step: Step,
) -> Result<Said, NoMemory>
    requires caller { IsCaller frontier.now caller.old.seat caller.old.busy }
    requires star { frontier.now.graph ≡ star.now }
    requires ids { ids ≡ room frontier.now }
    ensures { IsCaller frontier.now caller.new.seat caller.new.busy }
{
    match step {
        Step::Take => Ok(take(frontier, caller)),
        Step::Hint(id) => {
            if id >= ids {
                return Ok(Said::Refused);
            }
            Ok(hint(frontier, caller, id))
        }
        Step::Offer(number) => offer(alloc, frontier, star, caller, number),
        Step::Finish => finish(alloc, frontier, star, caller),
        Step::Halt => {
            frontier.halt(&mut caller.seat);
            Ok(Said::Done)
        }
    }
}

/// Does the rows, each by the first or the second caller, and gives the number of those that are answered
/// as they say, up to the first that isn't.
fn run(
    alloc: Global,
    frontier: &Frontier<Star>,
    star: &Star,
    ids: u32,
    first: &mut Caller,
    second: &mut Caller,
    rows: &[(bool, Step, Said)],
) -> Result<u32, NoMemory>
    requires first { IsCaller frontier.now first.old.seat first.old.busy }
    requires second { IsCaller frontier.now second.old.seat second.old.busy }
    requires star { frontier.now.graph ≡ star.now }
    requires ids { ids ≡ room frontier.now }
    ensures first { IsCaller frontier.now first.new.seat first.new.busy }
    ensures second { IsCaller frontier.now second.new.seat second.new.busy }
{
    let mut right = 0u32;
    for &(by_first, step, said) in rows {
        let got = if by_first {
            say(alloc, frontier, star, ids, first, step)?
        } else {
            say(alloc, frontier, star, ids, second, step)?
        };
        if got != said {
            return Ok(right);
        }
        right = right.wrapping_add(1);
    }
    Ok(right)
}

/// The listing of all callers, joined, where none has a hand.
fn joined(
    alloc: Global,
    frontier: Frontier<Star>,
    mut callers: Vec<Caller>,
) -> Result<Option<Listed>, NoMemory>
    requires workers { frontier.workers ≡ length callers.items }
    requires callers { All (λ m. IsCaller frontier m.seat m.busy) callers.items }
{
    let Some(Caller { mut seat, busy }) = callers.pop() else {
        return Ok(None);
    };
    if busy {
        return Ok(None);
    }
    while let Some(Caller { seat: other, busy }) = callers.pop() {
        if busy {
            return Ok(None);
        }
        seat = frontier.join(seat, other);
    }
    Ok(Some(frontier.close(alloc, seat)?))
}

/// Two callers do the rows. Gives how many rows are answered as they say, up to the first that isn't, and
/// the listing.
fn play(
    alloc: Global,
    cap: u32,
    last: u64,
    rows: &[(bool, Step, Said)],
) -> Result<(u32, Option<Listed>), NoMemory>
    requires { (0 < cap) × (cap ≤ 100) }
{
    let star = Star { last };
    let root = Sig::of(alloc, &[0])?;
    let (frontier, seat) = Frontier::new(alloc, &star, cap, 2, &root)?;
    let (one, two) = frontier.split(seat);
    let mut first = Caller {
        seat: one,
        busy: false,
    };
    let mut second = Caller {
        seat: two,
        busy: false,
    };
    let right = run(
        alloc,
        &frontier,
        &star,
        cap + 2,
        &mut first,
        &mut second,
        rows,
    )?;
    let callers = Vec::from_array(alloc, [first, second])?;
    Ok((right, joined(alloc, frontier, callers)?))
}

/// Whether these numbers are listed, in this order.
fn lists(listed: &Option<Listed>, numbers: &[u64]) -> bool {
    let Some(listed) = listed else {
        return numbers.is_empty();
    };
    if listed.sigs.len() != numbers.len() {
        return false;
    }
    for (i, sig) in listed.sigs.as_slice().iter().enumerate() {
        if sig.width() != 1 || i >= numbers.len() || sig.word(0) != numbers[i] {
            return false;
        }
    }
    true
}

/// Whether the numbers below `count` are listed, each once.
fn has_each_once(alloc: Global, listed: &Option<Listed>, count: usize) -> Result<bool, NoMemory> {
    let Some(listed) = listed else {
        return Ok(false);
    };
    let mut found = vec![in alloc; false; count]?;
    for sig in listed.sigs.as_slice().iter() {
        if sig.width() != 1 || sig.word(0) >= count as u64 || found[sig.word(0) as usize] {
            return Ok(false);
        }
        found[sig.word(0) as usize] = true;
    }
    Ok(listed.sigs.len() == count)
}

/// A caller for each place of the seat.
fn callers(
    alloc: Global,
    frontier: &Frontier<Star>,
    seat: Seat<Star>,
    workers: u32,
) -> Result<Vec<Caller>, NoMemory>
    requires seat { seat ≡ first_seat frontier.now }
    requires workers { (frontier.now.workers ≡ workers) × (0 < workers) }
    ensures long { IfOk result (λ l. length l.items ≡ workers) }
    ensures callers { IfOk result (λ l. All (λ m. IsCaller frontier.now m.seat m.busy) l.items) }
{
    let mut seat = seat;
    let mut all = Vec::new(alloc);
    for _k in 1..workers {
        let (rest, one) = frontier.split(seat);
        seat = rest;
        all.push(Caller {
            seat: one,
            busy: false,
        })?;
    }
    all.push(Caller { seat, busy: false })?;
    Ok(all)
}

/// All callers work, each on a thread.
fn work_all<R: Threads + Sync>(
    rt: &R,
    alloc: Global,
    frontier: &Frontier<Star>,
    star: &Star,
    most: u64,
    callers: &mut [Caller],
)
    requires callers { All (λ m. IsCaller frontier.now m.seat m.busy) callers.old }
    requires star { frontier.now.graph ≡ star.now }
    ensures { All (λ m. IsCaller frontier.now m.seat m.busy) callers.new }
{
    let each = |_i: usize, m: &mut Caller|
        requires { (frontier.now.graph ≡ star.now) × IsCaller frontier.now m.now.seat m.now.busy }
        ensures { IsCaller frontier.entry.now m.exit.now.seat m.exit.now.busy }
    { work(alloc, frontier, star, most, m) };
    for_each_mut(rt, callers, 8, &each);
}

/// The callers after their work.
fn worked<R: Threads + Sync>(
    rt: &R,
    alloc: Global,
    frontier: &Frontier<Star>,
    star: &Star,
    most: u64,
    mut callers: Vec<Caller>,
) -> Vec<Caller>
    requires callers { All (λ m. IsCaller frontier.now m.seat m.busy) callers.items }
    requires star { frontier.now.graph ≡ star.now }
    ensures long { length result.items ≡ length callers.items }
    ensures callers { All (λ m. IsCaller frontier.now m.seat m.busy) result.items }
{
    work_all(rt, alloc, frontier, star, most, callers.as_mut_slice());
    callers
}

/// What a take answers. The hand that it may give is finished.
fn answered(
    alloc: Global,
    frontier: &Frontier<Star>,
    star: &Star,
    caller: &mut Caller,
) -> Result<Said, NoMemory>
    requires caller { IsCaller frontier.now caller.old.seat caller.old.busy }
    requires star { frontier.now.graph ≡ star.now }
    ensures { IsCaller frontier.now caller.new.seat caller.new.busy }
{
    let said = take(frontier, caller);
    if caller.busy {
        finish(alloc, frontier, star, caller)?;
    }
    Ok(said)
}

/// Threads offer the numbers up to the last, for each id that they finish, and each finishes so many ids at
/// most. Says whether the numbers are listed, each once, and what a take then answers.
fn offer_by<R: Threads + Sync>(
    rt: &R,
    alloc: Global,
    threads: u32,
    last: u32,
    most: u64,
) -> Result<(bool, Said), NoMemory>
    requires { (0 < threads) × (threads ≤ 64) × (last < 65536) }
{
    let star = Star { last: last as u64 };
    let root = Sig::of(alloc, &[0])?;
    let (frontier, seat) = Frontier::new(alloc, &star, last + 1, threads, &root)?;
    let callers = callers(alloc, &frontier, seat, threads)?;
    let mut callers = worked(rt, alloc, &frontier, &star, most, callers);
    let Some(mut one) = callers.pop() else {
        return Ok((false, Said::Refused));
    };
    let said = answered(alloc, &frontier, &star, &mut one)?;
    callers.push(one)?;
    let listed = joined(alloc, frontier, callers)?;
    Ok((has_each_once(alloc, &listed, last as usize + 1)?, said))
}

/// What is told, the cap, the last number, the rows (whether the first caller does it, what it does, what is
/// answered), and the numbers that are listed.
type Case = (
    &'static str,
    u32,
    u64,
    &'static [(bool, Step, Said)],
    &'static [u64],
);

const CASES: &[Case] = &[
    // each leads to 1 and 2
    (
        "two callers share what they find",
        4,
        2,
        &[
            (true, Step::Take, Said::Work(0)),
            (false, Step::Take, Said::NotYet),
            (true, Step::Offer(1), Said::New(1)),
            (false, Step::Take, Said::Work(1)),
            (false, Step::Offer(1), Said::Seen(1)),
            (false, Step::Offer(2), Said::New(2)),
            (true, Step::Offer(2), Said::Seen(2)),
            (true, Step::Offer(3), Said::Refused),
            (true, Step::Finish, Said::Done),
            (true, Step::Take, Said::Work(2)),
            (false, Step::Finish, Said::Done),
            (false, Step::Take, Said::NotYet),
            (true, Step::Finish, Said::Done),
            (false, Step::Take, Said::Quiet),
        ],
        &[0, 1, 2],
    ),
    // both lead to 1 alone
    (
        "one caller waits for the other",
        4,
        1,
        &[
            (true, Step::Take, Said::Work(0)),
            (false, Step::Take, Said::NotYet),
            (true, Step::Offer(1), Said::New(1)),
            (true, Step::Offer(1), Said::Seen(1)),
            (true, Step::Finish, Said::Done),
            (false, Step::Take, Said::Work(1)),
            (true, Step::Take, Said::NotYet),
            (false, Step::Finish, Said::Done),
            (true, Step::Take, Said::Quiet),
            (false, Step::Take, Said::Quiet),
        ],
        &[0, 1],
    ),
    (
        "hints are taken once",
        4,
        3,
        &[
            (true, Step::Take, Said::Work(0)),
            (false, Step::Hint(1), Said::Gone),
            (true, Step::Offer(1), Said::New(1)),
            (false, Step::Hint(1), Said::Work(1)),
            (true, Step::Offer(2), Said::New(2)),
            (true, Step::Offer(3), Said::New(3)),
            (true, Step::Finish, Said::Done),
            (true, Step::Hint(1), Said::Gone),
            (true, Step::Hint(2), Said::Work(2)),
            (true, Step::Hint(3), Said::Refused),
            (true, Step::Finish, Said::Done),
            (true, Step::Hint(2), Said::Gone),
            (true, Step::Hint(5), Said::Gone),
            (true, Step::Hint(6), Said::Refused),
            (false, Step::Finish, Said::Done),
            (false, Step::Take, Said::Work(3)),
            (false, Step::Finish, Said::Done),
            (false, Step::Take, Said::Quiet),
        ],
        &[0, 1, 2, 3],
    ),
    // a table for one signature and two callers has three records; the hands stay, so nothing is listed
    (
        "a full table still knows its signatures",
        1,
        3,
        &[
            (true, Step::Take, Said::Work(0)),
            (true, Step::Offer(1), Said::New(1)),
            (true, Step::Offer(2), Said::New(2)),
            (true, Step::Offer(3), Said::Full),
            (true, Step::Offer(1), Said::Seen(1)),
            (true, Step::Finish, Said::Full),
            (false, Step::Take, Said::Work(2)),
            (false, Step::Offer(3), Said::Full),
            (false, Step::Halt, Said::Done),
            (false, Step::Offer(2), Said::Seen(2)),
            (true, Step::Take, Said::Refused),
        ],
        &[],
    ),
    (
        "callers halt",
        4,
        2,
        &[
            (true, Step::Take, Said::Work(0)),
            (false, Step::Halt, Said::Done),
            (true, Step::Offer(1), Said::New(1)),
            (true, Step::Offer(2), Said::New(2)),
            (true, Step::Finish, Said::Done),
            (true, Step::Take, Said::Halted),
            (false, Step::Take, Said::Halted),
        ],
        &[0, 1, 2],
    ),
];

/// Whether all rows of a case are answered as they say, and the numbers are listed.
fn is_played(alloc: Global, case: &Case) -> Result<bool, NoMemory> {
    let &(_told, cap, last, rows, numbers) = case;
    if cap == 0 || cap > 100 {
        return Ok(false);
    }
    let (right, listed) = play(alloc, cap, last, rows)?;
    Ok(right as usize == rows.len() && lists(&listed, numbers))
}

#[test]
fn two_callers_are_answered(rt: HostRuntime) -> Result<(), Fail> {
    for (i, case) in CASES.iter().enumerate() {
        assert!(rt; is_played(rt.alloc(), case)?, "case {i}");
    }
    Ok(())
}

/// A seat reads whether it told all to stop, and the frontier counts what is published.
#[test]
fn a_stop_is_read(rt: HostRuntime) -> Result<(), Fail> {
    let star = Star { last: 1 };
    let root = Sig::of(rt.alloc(), &[0])?;
    let (frontier, mut seat) = Frontier::new(rt.alloc(), &star, 4, 1, &root)?;
    assert_eq!(rt; frontier.stopped(&mut seat), false);
    frontier.halt(&mut seat);
    assert_eq!(rt; frontier.stopped(&mut seat), true);
    assert_eq!(rt; frontier.count(seat), 1);
    Ok(())
}

#[test]
fn threads_close_one_graph(rt: HostRuntime) -> Result<(), Fail> {
    for threads in [2, 4] {
        let found = offer_by(&rt, rt.alloc(), threads, 100, 101)?;
        assert_eq!(rt; found, (true, Said::Quiet));
    }
    Ok(())
}

#[test]
fn eight_threads_offer_the_same(rt: HostRuntime) -> Result<(), Fail> {
    let (each_once, _) = offer_by(&rt, rt.alloc(), 8, 10_000, 1)?;
    assert!(rt; each_once);
    Ok(())
}
