//! Members made one.
ghost use Rattle.std.specs.Prelude.{◌≡◌, ◌+◌, ◌<◌, ℕ, length};
ghost use Rattle.std.specs.List.{All};
ghost use Rattle.git_crew.specs.Members.{IsMember};

use crate::member::{End, Member};
use git_machine::Successors;
use git_table::Frontier;

/// A quiet member and one of a single place, also quiet, as one that found what both found.
fn join_quiet<G: Successors>(frontier: &Frontier<G>, one: Member<G>, other: Member<G>) -> Member<G>
where
    G::Payload: Drop,
    requires one { (n : ℕ) × IsMember G.next G.payload frontier.now n one }
    requires other { IsMember G.next G.payload frontier.now 1 other }
    requires quiet { (one.end ≡ End.Quiet) × (other.end ≡ End.Quiet) }
    ensures { (n : ℕ) → IsMember G.next G.payload frontier.now n one → IsMember G.next G.payload frontier.now (n + 1) result }
{
    let Member {
        seat,
        mut found,
        hints,
        end: _,
    } = one;
    let Member {
        seat: second,
        found: mut more,
        hints: _,
        end: _,
    } = other;
    let seat = frontier.join(seat, second);
    if found.append(&mut more).is_err() {
        return Member {
            seat,
            found,
            hints,
            end: End::Stopped,
        };
    }
    Member {
        seat,
        found,
        hints,
        end: End::Quiet,
    }
}

/// A member that can't go on.
fn stopped<G: Successors>(member: Member<G>) -> Member<G>
where
    G::Payload: Drop,
    ensures seat { result.seat ≡ member.seat }
    ensures hints { result.hints ≡ member.hints }
    ensures end { result.end ≡ End.Stopped }
{
    let Member {
        seat,
        found,
        hints,
        end: _,
    } = member;
    Member {
        seat,
        found,
        hints,
        end: End::Stopped,
    }
}

/// A member and one of a single place, as one. It is quiet where both are, else full where one of them is.
fn join_two<G: Successors>(frontier: &Frontier<G>, one: Member<G>, other: Member<G>) -> Member<G>
where
    G::Payload: Drop,
    requires one { (n : ℕ) × IsMember G.next G.payload frontier.now n one }
    requires other { IsMember G.next G.payload frontier.now 1 other }
    ensures { (n : ℕ) → IsMember G.next G.payload frontier.now n one → IsMember G.next G.payload frontier.now (n + 1) result }
{
    match (one.end, other.end) {
        (End::Quiet, End::Quiet) => join_quiet(frontier, one, other),
        (End::Full, _) => one,
        (_, End::Full) => other,
        _ => stopped(one),
    }
}

/// All members, each of a single place, as one.
pub(crate) fn join_all<G: Successors>(
    frontier: &Frontier<G>,
    mut members: Vec<Member<G>>,
) -> Member<G>
where
    G::Payload: Drop,
    requires some { 0 < length members.items }
    requires members { All (IsMember G.next G.payload frontier.now 1) members.items }
    ensures { IsMember G.next G.payload frontier.now (length members.items) result }
{
    let Some(last) = members.pop() else {
        unreachable!()
    };
    let mut all = last;
    while let Some(member) = members.pop() {
        all = join_two(frontier, all, member);
    }
    all
}
