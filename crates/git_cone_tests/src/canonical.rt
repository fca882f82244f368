//! Cones that everybody knows.
ghost use Rattle.std.specs.Prelude.{◌≡◌, IfOk};
ghost use Rattle.git_grading.specs.Gradings.{IsMatrix};

use git_canon::{Canon, CanonFault};
use git_grading::Grading;
use git_ints::IVec;
use std::alloc::Global;
use std::test::Fail;

/// The cone of a matrix's columns.
fn generated(alloc: Global, k: usize, columns: Vec<IVec>) -> Result<Canon, Fail>
    requires { IsMatrix k columns.items }
    ensures { IfOk result (λ c. c.k ≡ k) }
{
    let grading = Grading::of(alloc, k, columns)?;
    let k = grading.k();
    Ok(Canon::of_generators(alloc, k, grading.columns())?)
}

/// The cone that the facets of a cone cut out.
fn cut_again(alloc: Global, c: &Canon) -> Result<Canon, CanonFault> {
    let Some(first) = c.rays.first() else {
        unreachable!()
    };
    let k = first.len();
    if c.facets.len() > 1000 {
        return Err(CanonFault::NoMemory);
    }
    Canon::of_inequalities(alloc, k, &c.facets)
}

#[test]
fn wedges_and_squares(rt: HostRuntime) -> Result<(), Fail> {
    let alloc = rt.alloc();
    let columns = [IVec::of(&[1, 0]), IVec::of(&[1, 1]), IVec::of(&[0, 1])].to_vec(alloc)?;
    let units = [IVec::of(&[0, 1]), IVec::of(&[1, 0])];
    let wedge = generated(alloc, 2, columns)?;
    assert_eq!(rt; wedge.rays.as_slice(), units.as_slice());
    assert_eq!(rt; wedge.facets.as_slice(), units.as_slice());
    assert!(rt; wedge.holds(&IVec::of(&[3, 0])));
    assert!(rt; wedge.holds(&IVec::of(&[0, 0])));
    assert!(rt; !wedge.holds(&IVec::of(&[5, -1])));
    let columns = [IVec::of(&[2, 2]), IVec::of(&[3, 0])].to_vec(alloc)?;
    let narrow = generated(alloc, 2, columns)?;
    assert_eq!(rt;
        narrow.rays.as_slice(),
        [IVec::of(&[1, 0]), IVec::of(&[1, 1])].as_slice()
    );
    assert_eq!(rt;
        narrow.facets.as_slice(),
        [IVec::of(&[0, 1]), IVec::of(&[1, -1])].as_slice()
    );
    assert!(rt; !wedge.same(&narrow));
    assert!(rt; narrow.same(&cut_again(alloc, &narrow)?));
    Ok(())
}

/// A square at height 1, with its centre and a corner twice, and the cone that its sides cut out again.
#[test]
fn rays_are_the_corners(rt: HostRuntime) -> Result<(), Fail> {
    let alloc = rt.alloc();
    let columns = [
        IVec::of(&[1, 1, 1]),
        IVec::of(&[0, 0, 1]),
        IVec::of(&[1, 1, 2]),
        IVec::of(&[2, 0, 2]),
        IVec::of(&[0, 1, 1]),
        IVec::of(&[3, 3, 3]),
    ]
    .to_vec(alloc)?;
    let square = generated(alloc, 3, columns)?;
    let corners = [
        IVec::of(&[0, 0, 1]),
        IVec::of(&[0, 1, 1]),
        IVec::of(&[1, 0, 1]),
        IVec::of(&[1, 1, 1]),
    ];
    let sides = [
        IVec::of(&[-1, 0, 1]),
        IVec::of(&[0, -1, 1]),
        IVec::of(&[0, 1, 0]),
        IVec::of(&[1, 0, 0]),
    ];
    assert_eq!(rt; square.rays.as_slice(), corners.as_slice());
    assert_eq!(rt; square.facets.as_slice(), sides.as_slice());
    let again = cut_again(alloc, &square)?;
    assert_eq!(rt; again.rays.as_slice(), corners.as_slice());
    assert!(rt; square.same(&again));
    Ok(())
}

/// The cone over the cyclic polytope with 7 corners in four dimensions has 14 sides; a cube has 8 corners
/// and 6 sides.
#[test]
fn polytopes_have_their_counts(rt: HostRuntime) -> Result<(), Fail> {
    let alloc = rt.alloc();
    let columns = [
        IVec::of(&[1, -3, 9, -27, 81]),
        IVec::of(&[1, -2, 4, -8, 16]),
        IVec::of(&[1, -1, 1, -1, 1]),
        IVec::of(&[1, 0, 0, 0, 0]),
        IVec::of(&[1, 1, 1, 1, 1]),
        IVec::of(&[1, 2, 4, 8, 16]),
        IVec::of(&[1, 3, 9, 27, 81]),
    ]
    .to_vec(alloc)?;
    let cyclic = generated(alloc, 5, columns)?;
    assert_eq!(rt; cyclic.rays.len(), 7);
    assert_eq!(rt; cyclic.facets.len(), 14);
    assert!(rt; cyclic.same(&cut_again(alloc, &cyclic)?));
    let columns = [
        IVec::of(&[0, 0, 0, 1]),
        IVec::of(&[1, 0, 0, 1]),
        IVec::of(&[0, 1, 0, 1]),
        IVec::of(&[1, 1, 0, 1]),
        IVec::of(&[0, 0, 1, 1]),
        IVec::of(&[1, 0, 1, 1]),
        IVec::of(&[0, 1, 1, 1]),
        IVec::of(&[1, 1, 1, 1]),
    ]
    .to_vec(alloc)?;
    let cube = generated(alloc, 4, columns)?;
    assert_eq!(rt; cube.rays.len(), 8);
    assert_eq!(rt; cube.facets.len(), 6);
    assert!(rt; !cube.same(&cyclic));
    Ok(())
}

/// Cones may be shared and moved between threads.
#[test]
fn cones_cross_threads(rt: HostRuntime) -> Result<(), Fail> {
    let alloc = rt.alloc();
    let cone = generated(alloc, 1, [IVec::of(&[-3])].to_vec(alloc)?)?;
    assert_eq!(rt; crossed(cone).rays.len(), 1);
    Ok(())
}

fn crossed<T: Send + Sync>(value: T) -> T {
    value
}
