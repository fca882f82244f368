//! Matrices judged by hand.
ghost use Rattle.git_grading.specs.Gradings.{IsMatrix};

use git_grading::{Grading, GradingFault};
use git_ints::IVec;
use std::alloc::Global;
use std::test::Fail;

#[test]
fn ranks_are_judged(rt: HostRuntime) -> Result<(), Fail> {
    let alloc = rt.alloc();
    let rank = Err(GradingFault::Rank);
    let level = [IVec::of(&[1, 0]), IVec::of(&[2, 0])].to_vec(alloc)?;
    assert_eq!(rt; answer(alloc, 2, level), rank);
    let parallel = [IVec::of(&[1, 2]), IVec::of(&[2, 4])].to_vec(alloc)?;
    assert_eq!(rt; answer(alloc, 2, parallel), rank);
    let one = [IVec::of(&[0])].to_vec(alloc)?;
    assert_eq!(rt; answer(alloc, 1, one), rank);
    let short = [IVec::of(&[1, 0, 0]), IVec::of(&[0, 1, 0])].to_vec(alloc)?;
    assert_eq!(rt; answer(alloc, 3, short), rank);
    let flat = [
        IVec::of(&[1, 2, 3]),
        IVec::of(&[4, 5, 6]),
        IVec::of(&[7, 8, 9]),
    ]
    .to_vec(alloc)?;
    assert_eq!(rt; answer(alloc, 3, flat), rank);
    // The determinant is 32003.
    let turned = [IVec::of(&[1000, -3]), IVec::of(&[1, 32])].to_vec(alloc)?;
    assert_eq!(rt; answer(alloc, 2, turned), Ok(2));
    // The determinant is 32 times 10^18.
    let large = [
        IVec::of(&[1000, -1000, -1000, -1000, -1000, -1000]),
        IVec::of(&[1000, 1000, -1000, -1000, -1000, -1000]),
        IVec::of(&[1000, 1000, 1000, -1000, -1000, -1000]),
        IVec::of(&[1000, 1000, 1000, 1000, -1000, -1000]),
        IVec::of(&[1000, 1000, 1000, 1000, 1000, -1000]),
        IVec::of(&[1000, 1000, 1000, 1000, 1000, 1000]),
    ]
    .to_vec(alloc)?;
    assert_eq!(rt; answer(alloc, 6, large), Ok(6));
    Ok(())
}

#[test]
fn pointedness_is_judged(rt: HostRuntime) -> Result<(), Fail> {
    let alloc = rt.alloc();
    let pointed = Err(GradingFault::Pointed);
    let line = [IVec::of(&[1]), IVec::of(&[-1])].to_vec(alloc)?;
    assert_eq!(rt; answer(alloc, 1, line), pointed);
    let zero = [IVec::of(&[1]), IVec::of(&[0])].to_vec(alloc)?;
    assert_eq!(rt; answer(alloc, 1, zero), pointed);
    let ray = [IVec::of(&[-1]), IVec::of(&[-2])].to_vec(alloc)?;
    assert_eq!(rt; answer(alloc, 1, ray), Ok(2));
    let half_plane = [IVec::of(&[1, 0]), IVec::of(&[0, 1]), IVec::of(&[-1, 0])].to_vec(alloc)?;
    assert_eq!(rt; answer(alloc, 2, half_plane), pointed);
    let plane = [IVec::of(&[1, 0]), IVec::of(&[-1, 1]), IVec::of(&[-1, -1])].to_vec(alloc)?;
    assert_eq!(rt; answer(alloc, 2, plane), pointed);
    let narrow = [IVec::of(&[1000, -1000]), IVec::of(&[999, -1000])].to_vec(alloc)?;
    assert_eq!(rt; answer(alloc, 2, narrow), Ok(2));
    let three = [
        IVec::of(&[1, 0, 0]),
        IVec::of(&[0, 1, 0]),
        IVec::of(&[0, 0, 1]),
        IVec::of(&[-1, -1, 0]),
    ]
    .to_vec(alloc)?;
    assert_eq!(rt; answer(alloc, 3, three), pointed);
    let four = [
        IVec::of(&[1, 0, 0]),
        IVec::of(&[0, 1, 0]),
        IVec::of(&[0, 0, 1]),
        IVec::of(&[-1, -1, -1]),
    ]
    .to_vec(alloc)?;
    assert_eq!(rt; answer(alloc, 3, four), pointed);
    let cube = [
        IVec::of(&[0, 0, 1]),
        IVec::of(&[1, 0, 1]),
        IVec::of(&[0, 1, 1]),
        IVec::of(&[1, 1, 1]),
    ]
    .to_vec(alloc)?;
    assert_eq!(rt; answer(alloc, 3, cube), Ok(4));
    Ok(())
}

/// Takes a type that threads may share and move.
fn shared<T: Send + Sync>(_value: &T) {}

/// The number of columns, or the fault.
fn answer(alloc: Global, k: usize, columns: Vec<IVec>) -> Result<usize, GradingFault>
    requires { IsMatrix k columns.items }
{
    Ok(Grading::of(alloc, k, columns)?.r())
}

/// Column i has the powers of i modulo 17, so any six are independent.
#[test]
fn sixteen_columns_of_rank_six(rt: HostRuntime) -> Result<(), Fail> {
    let alloc = rt.alloc();
    let columns = [
        IVec::of(&[1, 0, 0, 0, 0, 0]),
        IVec::of(&[1, 1, 1, 1, 1, 1]),
        IVec::of(&[1, 2, 4, 8, 16, 15]),
        IVec::of(&[1, 3, 9, 10, 13, 5]),
        IVec::of(&[1, 4, 16, 13, 1, 4]),
        IVec::of(&[1, 5, 8, 6, 13, 14]),
        IVec::of(&[1, 6, 2, 12, 4, 7]),
        IVec::of(&[1, 7, 15, 3, 4, 11]),
        IVec::of(&[1, 8, 13, 2, 16, 9]),
        IVec::of(&[1, 9, 13, 15, 16, 8]),
        IVec::of(&[1, 10, 15, 14, 4, 6]),
        IVec::of(&[1, 11, 2, 5, 4, 10]),
        IVec::of(&[1, 12, 8, 11, 13, 3]),
        IVec::of(&[1, 13, 16, 4, 1, 13]),
        IVec::of(&[1, 14, 9, 7, 13, 12]),
        IVec::of(&[1, 15, 4, 9, 16, 2]),
    ]
    .to_vec(alloc)?;
    let grading = Grading::of(alloc, 6, columns)?;
    assert_eq!(rt; grading.r(), 16);
    for (mask, full) in [
        (0x001f, false),
        (0x003f, true),
        (0xfc00, true),
        (0xaaa8, true),
        (0xf800, false),
        (0xffff, true),
    ] {
        assert_eq!(rt; grading.full(mask), full, "at {mask}");
    }
    Ok(())
}

#[test]
fn faces_are_full_where_they_turn(rt: HostRuntime) -> Result<(), Fail> {
    let alloc = rt.alloc();
    let columns = [IVec::of(&[1, 0]), IVec::of(&[2, 0]), IVec::of(&[0, 1])].to_vec(alloc)?;
    let grading = Grading::of(alloc, 2, columns)?;
    shared(&grading);
    assert_eq!(rt; grading.k(), 2);
    assert_eq!(rt; grading.r(), 3);
    assert_eq!(rt; grading.column(1), IVec::of(&[2, 0]));
    for (mask, full) in [
        (1, false),
        (3, false),
        (4, false),
        (5, true),
        (6, true),
        (7, true),
    ] {
        assert_eq!(rt; grading.full(mask), full, "at {mask}");
    }
    Ok(())
}
