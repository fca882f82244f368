//! Ranks that everybody knows, and some with determinants above 128 bits.
use super::*;
use git_ints::IVec;
use git_stages::are_short;
use std::alloc::Global;
use std::process::Abort;
use std::test::Fail;

fn rank_of(rt: &impl Abort, alloc: Global, k: usize, vs: &[IVec]) -> Result<usize, Fail> {
    assert!(rt; k <= 6);
    assert!(rt; are_short(k, vs));
    Ok(rank(alloc, k, vs)?)
}

#[test]
fn ranks_are_exact(rt: HostRuntime) -> Result<(), Fail> {
    let alloc = rt.alloc();
    assert_eq!(rt; rank_of(&rt, alloc, 3, &[])?, 0);
    assert_eq!(rt;
        rank_of(&rt, alloc, 2, &[IVec::of(&[0, 0]), IVec::of(&[0, 0])])?,
        0
    );
    assert_eq!(rt;
        rank_of(
            &rt,
            alloc,
            2,
            &[IVec::of(&[3, 6]), IVec::of(&[1, 2]), IVec::of(&[-2, -4])]
        )?,
        1
    );
    let rows = [
        IVec::of(&[1, 2, 3]),
        IVec::of(&[4, 5, 6]),
        IVec::of(&[7, 8, 9]),
    ];
    assert_eq!(rt; rank_of(&rt, alloc, 3, &rows)?, 2);
    let turned = [
        IVec::of(&[0, 0, 1]),
        IVec::of(&[0, 1, 0]),
        IVec::of(&[1, 0, 0]),
    ];
    assert_eq!(rt; rank_of(&rt, alloc, 3, &turned)?, 3);
    Ok(())
}

/// The determinant of the six rows is 32 times 2^240, which 2^86 divides but 2^86 - 1 doesn't.
#[test]
fn large_determinants_are_known(rt: HostRuntime) -> Result<(), Fail> {
    let alloc = rt.alloc();
    let m = 1i128 << 40;
    let rows = [
        IVec::of(&[m, -m, -m, -m, -m, -m]),
        IVec::of(&[m, m, -m, -m, -m, -m]),
        IVec::of(&[m, m, m, -m, -m, -m]),
        IVec::of(&[m, m, m, m, -m, -m]),
        IVec::of(&[m, m, m, m, m, -m]),
        IVec::of(&[m, m, m, m, m, m]),
    ];
    assert_eq!(rt; rank_of(&rt, alloc, 6, &rows)?, 6);
    let level = [
        rows[0],
        rows[1],
        rows[2],
        rows[3],
        rows[4],
        IVec::of(&[m, 0, 0, 0, 0, -m]),
    ];
    assert_eq!(rt; rank_of(&rt, alloc, 6, &level)?, 5);
    Ok(())
}
