//! Cones that everybody knows.
ghost use Rattle.std.specs.Prelude.{◌≤◌, ◌*◌, All, length};
ghost use Rattle.git_stages.specs.Short.{IsShort};
ghost use Rattle.git_adjacency.specs.Marks.{IsRay};

use git_adjacency::{is_adjacent, share_enough};
use git_dd::{DdFault, Ray, Rays, WideAt, WideWhat, are_adjacent, first_rays, rays};
use git_ints::IVec;
use git_stages::are_short;
use std::alloc::Global;
use std::process::Abort;
use std::test::Fail;

/// The answer for some inequalities.
fn answer(
    rt: &impl Abort,
    alloc: Global,
    k: usize,
    inequalities: &[IVec],
) -> Result<Rays, DdFault> {
    assert!(rt; 1 <= k && k <= 6);
    assert!(rt; are_short(k, inequalities));
    assert!(rt; inequalities.len() < 1000);
    rays(alloc, k, inequalities)
}

/// The fault, where there is one.
fn fault(answer: Result<Rays, DdFault>) -> Option<DdFault> {
    answer.err()
}

#[test]
fn squares_and_wedges(rt: HostRuntime) -> Result<(), Fail> {
    let alloc = rt.alloc();
    let wedge = [IVec::of(&[0, 1]), IVec::of(&[1, 0]), IVec::of(&[1, 1])];
    let found = answer(&rt, alloc, 2, &wedge)?;
    assert_eq!(rt;
        found.list.as_slice(),
        [IVec::of(&[0, 1]), IVec::of(&[1, 0])].as_slice()
    );
    assert_eq!(rt; found.tight.len(), 2);
    assert_eq!(rt; found.tight[0].as_slice(), [1].as_slice());
    assert_eq!(rt; found.tight[1].as_slice(), [0].as_slice());
    // The sides of a square, one twice, one as a multiple, and a zero.
    let square = [
        IVec::of(&[0, 3, 0]),
        IVec::of(&[-1, 0, 1]),
        IVec::of(&[0, -1, 1]),
        IVec::of(&[0, 0, 0]),
        IVec::of(&[0, 1, 0]),
        IVec::of(&[1, 0, 0]),
    ];
    let corners = [
        IVec::of(&[0, 0, 1]),
        IVec::of(&[0, 1, 1]),
        IVec::of(&[1, 0, 1]),
        IVec::of(&[1, 1, 1]),
    ];
    let found = answer(&rt, alloc, 3, &square)?;
    assert_eq!(rt; found.list.as_slice(), corners.as_slice());
    let sides = [[2, 3], [1, 3], [0, 2], [0, 1]];
    assert_eq!(rt; found.tight.len(), 4);
    for (i, side) in sides.iter().enumerate() {
        assert!(rt; i < found.tight.len());
        assert_eq!(rt; found.tight[i].as_slice(), side.as_slice());
    }
    Ok(())
}

/// The quadrant in rank k has the k unit vectors, each on all inequalities but one.
#[test]
fn quadrants(rt: HostRuntime) -> Result<(), Fail> {
    let alloc = rt.alloc();
    for k in 1..=6 {
        let found = answer(&rt, alloc, k, &git_stages::unit_vectors(alloc, k)?)?;
        assert_eq!(rt; found.list.len(), k);
        for i in 0..k {
            assert!(rt; i < found.list.len() && i < found.tight.len());
            assert_eq!(rt; found.list[i], IVec::unit(k, k - 1 - i));
            assert_eq!(rt; found.tight[i].len(), k - 1);
            assert!(rt; !found.tight[i].contains(&(i as u32)));
        }
    }
    Ok(())
}

/// A cube has 8 corners and 6 sides; with a corner cut off it has 10.
#[test]
fn cubes(rt: HostRuntime) -> Result<(), Fail> {
    let alloc = rt.alloc();
    let sides = [
        IVec::of(&[1, 0, 0, 0]),
        IVec::of(&[0, 1, 0, 0]),
        IVec::of(&[0, 0, 1, 0]),
        IVec::of(&[-1, 0, 0, 2]),
        IVec::of(&[0, -1, 0, 2]),
        IVec::of(&[0, 0, -1, 2]),
        IVec::of(&[-1, -1, -1, 5]),
    ];
    let cube = answer(&rt, alloc, 4, &sides[..6])?;
    assert_eq!(rt; cube.list.len(), 8);
    assert_eq!(rt; cube.list[0], IVec::of(&[0, 0, 0, 1]));
    let cut = answer(&rt, alloc, 4, &sides)?;
    assert_eq!(rt; cut.list.len(), 10);
    for places in &cut.tight {
        assert_eq!(rt; places.len(), 3);
    }
    Ok(())
}

/// The cyclic polytope with n corners has n (n - 3) / 2 sides in four dimensions.
#[test]
fn cyclic_polytopes(rt: HostRuntime) -> Result<(), Fail> {
    let alloc = rt.alloc();
    let points = [
        IVec::of(&[1, -3, 9, -27, 81]),
        IVec::of(&[1, -2, 4, -8, 16]),
        IVec::of(&[1, -1, 1, -1, 1]),
        IVec::of(&[1, 0, 0, 0, 0]),
        IVec::of(&[1, 1, 1, 1, 1]),
        IVec::of(&[1, 2, 4, 8, 16]),
        IVec::of(&[1, 3, 9, 27, 81]),
        IVec::of(&[1, 4, 16, 64, 256]),
    ];
    for (n, sides) in [(5, 5), (6, 9), (7, 14), (8, 20)] {
        assert!(rt; n <= points.len());
        assert_eq!(rt;
            answer(&rt, alloc, 5, &points[..n])?.list.len(),
            sides,
            "{n} corners"
        );
    }
    Ok(())
}

#[test]
fn refusals(rt: HostRuntime) {
    let alloc = rt.alloc();
    let line = [IVec::of(&[1, 0]), IVec::of(&[2, 0])];
    assert_eq!(rt;
        fault(answer(&rt, alloc, 2, &line)),
        Some(DdFault::NotPointed { rank: 1 })
    );
    assert_eq!(rt;
        fault(answer(&rt, alloc, 3, &[])),
        Some(DdFault::NotPointed { rank: 0 })
    );
    let wide = [
        IVec::of(&[0, 0, 1]),
        IVec::of(&[0, 2097152, 1]),
        IVec::of(&[2097152, 1, 0]),
    ];
    let at = WideAt {
        stage: 3,
        what: WideWhat::Entry(IVec::of(&[1, -2097152, 4398046511104])),
    };
    assert_eq!(rt;
        fault(answer(&rt, alloc, 3, &wide)),
        Some(DdFault::Wide(at))
    );
    let steep = [
        IVec::of(&[1, 999, 0, 0, 0, 0]),
        IVec::of(&[0, 1, 999, 0, 0, 0]),
        IVec::of(&[0, 0, 1, 999, 0, 0]),
        IVec::of(&[0, 0, 0, 1, 999, 0]),
        IVec::of(&[0, 0, 0, 0, 1, 999]),
        IVec::of(&[0, 0, 0, 0, 0, 1]),
    ];
    let least = [-995009990004999, 996005996001, -997002999, 998001, -999, 1];
    let at = WideAt {
        stage: 6,
        what: WideWhat::Entry(IVec::of(&least)),
    };
    assert_eq!(rt;
        fault(answer(&rt, alloc, 6, &steep)),
        Some(DdFault::Wide(at))
    );
}

/// The elimination is wide at its second stage, where a third vector of the list is still to come, and
/// only the rank decides which refusal it is.
#[test]
fn rank_comes_before_width(rt: HostRuntime) {
    let alloc = rt.alloc();
    let m = 1i128 << 40;
    let level = [
        IVec::of(&[1, m, 1]),
        IVec::of(&[m, 1, 1]),
        IVec::of(&[1, -1, 0]),
    ];
    assert_eq!(rt;
        fault(answer(&rt, alloc, 3, &level)),
        Some(DdFault::NotPointed { rank: 2 })
    );
    let full = [level[0], level[2], IVec::of(&[m, 0, 1])];
    let at = WideAt {
        stage: 2,
        what: WideWhat::Entry(IVec::of(&[-1, -1, m + 1])),
    };
    assert_eq!(rt;
        fault(answer(&rt, alloc, 3, &full)),
        Some(DdFault::Wide(at))
    );
}

/// Entries of 2^40 pass.
#[test]
fn entries_at_the_limit(rt: HostRuntime) -> Result<(), Fail> {
    let alloc = rt.alloc();
    let m = 1i128 << 40;
    let wedge = [IVec::of(&[1, m]), IVec::of(&[1, 0])];
    let found = answer(&rt, alloc, 2, &wedge)?;
    assert_eq!(rt;
        found.list.as_slice(),
        [IVec::of(&[0, 1]), IVec::of(&[m, -1])].as_slice()
    );
    Ok(())
}

/// The number of neighbours of a vector, which the quick test by marks and the plain one agree on.
fn neighbours_of(
    rt: &impl Abort,
    k: usize,
    inequalities: &[IVec],
    width: usize,
    rays: &[Ray],
    list: &[IVec],
    r: &Ray,
) -> usize
    requires inequalities { All (IsShort k) inequalities.now }
    requires list { All (IsShort k) list.now }
    requires rays { All (IsRay k inequalities.now width) rays.now }
    requires r { IsRay k inequalities.now width r.now }
{
    let mut count = 0usize;
    for s in rays {
        let quick = share_enough(k, &r.zeros, &s.zeros)
            && is_adjacent(inequalities, width, rays, r, s);
        let plain = are_adjacent(k, inequalities, list, &r.vector, &s.vector);
        assert_eq!(rt; quick, plain);
        if quick {
            count = count.saturating_add(1);
        }
    }
    count
}

/// The number of pairs of neighbours among the extreme vectors, each vector with itself among them.
fn neighbours(
    rt: &impl Abort,
    alloc: Global,
    k: usize,
    inequalities: &[IVec],
) -> Result<usize, Fail> {
    let found = answer(rt, alloc, k, inequalities)?;
    assert!(rt; are_short(k, inequalities) && are_short(k, &found.list));
    assert!(rt; inequalities.len() < 1000);
    let width = inequalities.len() / 64 + 1;
    let rays = first_rays(alloc, k, inequalities, width, &found.list)?;
    let mut count = 0usize;
    for r in &rays {
        count = count.saturating_add(neighbours_of(
            rt,
            k,
            inequalities,
            width,
            &rays,
            &found.list,
            r,
        ));
    }
    Ok(count)
}

/// A cube has 12 edges, the dual of a cyclic polytope with 8 corners in four dimensions 40. In the sum of
/// two squares the corners of a diagonal share 4 sides, and are no neighbours.
#[test]
fn quick_and_plain_neighbours_are_the_same(rt: HostRuntime) -> Result<(), Fail> {
    let alloc = rt.alloc();
    let cube = [
        IVec::of(&[1, 0, 0, 0]),
        IVec::of(&[0, 1, 0, 0]),
        IVec::of(&[0, 0, 1, 0]),
        IVec::of(&[-1, 0, 0, 2]),
        IVec::of(&[0, -1, 0, 2]),
        IVec::of(&[0, 0, -1, 2]),
    ];
    assert_eq!(rt; neighbours(&rt, alloc, 4, &cube)?, 8 + 2 * 12);
    let cyclic = [
        IVec::of(&[1, -3, 9, -27, 81]),
        IVec::of(&[1, -2, 4, -8, 16]),
        IVec::of(&[1, -1, 1, -1, 1]),
        IVec::of(&[1, 0, 0, 0, 0]),
        IVec::of(&[1, 1, 1, 1, 1]),
        IVec::of(&[1, 2, 4, 8, 16]),
        IVec::of(&[1, 3, 9, 27, 81]),
        IVec::of(&[1, 4, 16, 64, 256]),
    ];
    assert_eq!(rt; neighbours(&rt, alloc, 5, &cyclic)?, 20 + 2 * 40);
    let squares = [
        IVec::of(&[1, 0, 0, 0, 0, 0]),
        IVec::of(&[0, 1, 0, 0, 0, 0]),
        IVec::of(&[-1, 0, 1, 0, 0, 0]),
        IVec::of(&[0, -1, 1, 0, 0, 0]),
        IVec::of(&[0, 0, 0, 1, 0, 0]),
        IVec::of(&[0, 0, 0, 0, 1, 0]),
        IVec::of(&[0, 0, 0, -1, 0, 1]),
        IVec::of(&[0, 0, 0, 0, -1, 1]),
    ];
    assert_eq!(rt; neighbours(&rt, alloc, 6, &squares)?, 8 + 2 * (4 + 4 + 16));
    Ok(())
}
