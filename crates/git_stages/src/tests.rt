//! Values worked by hand.
ghost use Rattle.std.specs.Prelude.{All};
ghost use Rattle.git_stages.specs.Short.{IsShort};

use super::*;
use git_ints::IVec;
use std::alloc::Global;
use std::process::Abort;
use std::test::Fail;

/// The prepared list of vectors of two entries.
fn prepared_plane(rt: &impl Abort, alloc: Global, given: &[IVec]) -> Result<Vec<IVec>, Fail> {
    assert!(rt; are_short(2, given));
    Ok(prepared(alloc, 2, given)?)
}

#[test]
fn lists_are_prepared(rt: HostRuntime) -> Result<(), Fail> {
    let alloc = rt.alloc();
    let given = [
        IVec::of(&[4, -6]),
        IVec::of(&[0, 0]),
        IVec::of(&[0, 5]),
        IVec::of(&[2, -3]),
        IVec::of(&[0, 1]),
        IVec::of(&[-2, 0]),
    ];
    let list = prepared_plane(&rt, alloc, &given)?;
    let wanted = [IVec::of(&[-1, 0]), IVec::of(&[0, 1]), IVec::of(&[2, -3])];
    assert_eq!(rt; list.as_slice(), wanted.as_slice());
    assert_eq!(rt; prepared_plane(&rt, alloc, &[])?.len(), 0);
    Ok(())
}

#[test]
fn vectors_turn_onto_an_inequality(rt: HostRuntime) {
    let b = IVec::of(&[1, 2]);
    let above = IVec::of(&[1, 1]);
    let below = IVec::of(&[2, -3]);
    let vectors = [b, above, below];
    assert!(rt; are_short(2, &vectors));
    assert_eq!(rt; product(2, &b, &below), -4);
    assert!(rt; is_above(2, &b, &above));
    assert!(rt; !is_level(2, &b, &above));
    assert_eq!(rt; turned(2, &b, &above, &below), IVec::of(&[2, -1]));
    assert_eq!(rt; negated(2, &below), IVec::of(&[-2, 3]));
}

#[test]
fn large_entries_are_found(rt: HostRuntime) {
    let most = 1i128 << 40;
    let edge = IVec::of(&[most, -most]);
    let past = IVec::of(&[0, most + 1]);
    let under = IVec::of(&[-1 - most, 0]);
    for (v, small) in [(edge, true), (past, false), (under, false)] {
        assert_eq!(rt; is_small(&v), small, "{v:?}");
    }
    assert_eq!(rt; least_large(None, &[edge, past, under]), Some(under));
    assert_eq!(rt; least_large(None, &[edge]), None);
    assert!(rt; are_short(2, &[edge]));
    assert!(rt; !are_short(1, &[edge]));
    assert!(rt; !are_short(2, &[edge, past]));
}

#[test]
fn lists_grow(rt: HostRuntime) -> Result<(), Fail> {
    let alloc = rt.alloc();
    let units = unit_vectors(alloc, 3)?;
    let last = [IVec::of(&[0, 1, 0]), IVec::of(&[0, 0, 1])];
    assert_eq!(rt; units.len(), 3);
    assert_eq!(rt; without(alloc, &units, 0)?.as_slice(), last.as_slice());
    let mut all = joined(alloc, &last, &units)?;
    append(&mut all, &last)?;
    assert_eq!(rt; all.len(), 7);
    assert_eq!(rt;
        sorted_set(all).as_slice(),
        [last[1], last[0], IVec::of(&[1, 0, 0])].as_slice()
    );
    Ok(())
}

/// Evidence may be shared and moved between threads.
#[test]
fn evidence_crosses_threads(rt: HostRuntime) {
    let at = WideAt {
        stage: 6,
        what: WideWhat::Many,
    };
    assert_eq!(rt; crossed(at), at);
}

fn crossed<T: Send + Sync>(value: T) -> T {
    value
}
