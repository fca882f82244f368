//! Listings of gradings worked by hand, and chambers that are refused.
ghost use Rattle.std.specs.Prelude.{◌≡◌, ◌<◌, ◌-◌, ◌^◌, IfOk, length, Contains};
ghost use Rattle.git_grading.specs.Gradings.{IsMatrix};
ghost use Rattle.git_orbit.specs.Orbits.{AreFaces};

use super::*;
use git_chamber::FanGraph;
use git_grading::Grading;
use git_ints::IVec;
use git_listing::{Listing, print};
use git_orbit::Cones;
use git_plain::close_over;
use git_stages::{WideWhat, add};
use std::alloc::Global;
use std::test::Fail;

/// The text of a listing for three columns of the plane, whichever way round they are given.
const PLANE: &[u8] =
    b"gitfan-listing 2\ngrading 2 3\ncones 3\nchambers 2\nchamber 1\nray 0 1\nray 1 1\nweight 1 2\nfacet -1 1 inner 2 matched\nfacet 1 0 boundary\nchamber 2\nray 1 0\nray 1 1\nweight 2 1\nfacet 0 1 boundary\nfacet 1 -1 inner 1 matched\nend\n";

/// The text of a listing whose one chamber is crossed: the quadrant, with a further cone in it.
const CROSSED: &[u8] =
    b"gitfan-listing 2\ngrading 2 3\ncones 2\nchambers 1\nchamber 1\nray 0 1\nray 1 0\nweight 1 1\ncrossed 1\nfacet 0 1 boundary\nfacet 1 0 boundary\nend\n";

const LINE: &[u8] =
    b"gitfan-listing 2\ngrading 1 2\ncones 1\nchambers 1\nchamber 1\nray 1\nweight 1\nfacet 1 boundary\nend\n";

/// The full faces with masks from `least` on, descending. Fails where the one of all columns isn't full.
fn full_masks(alloc: Global, g: &Grading, count: u16, least: u16) -> Result<Vec<u16>, Fail>
    requires { count ≡ 2 ^ length g.now.columns }
    ensures faces { IfOk result (λ v. AreFaces g.now.k g.now.columns v.items) }
    ensures whole { IfOk result (λ v. Contains v.items (count - 1)) }
{
    let mut out = Vec::new(alloc);
    for i in 0..count {
        let mask = count - 1 - i;
        if mask >= least && g.full(mask) {
            add(&mut out, mask)?;
        }
    }
    if out.is_empty() || out[0] != count - 1 {
        return Err(Fail::new("the columns are not full"));
    }
    Ok(out)
}

/// The text of what is assembled of the cones of a matrix's full faces with masks from `least` on.
fn assembled(
    alloc: Global,
    k: usize,
    columns: Vec<IVec>,
    count: u16,
    least: u16,
) -> Result<Result<Vec<u8>, AssembleFault>, Fail>
    requires matrix { IsMatrix k columns.items }
    requires count { count ≡ 2 ^ length columns.items }
{
    let grading = Grading::of(alloc, k, columns)?;
    let masks = full_masks(alloc, &grading, count, least)?;
    let cones = Cones::new(alloc, &grading, &masks)?;
    let graph = FanGraph::new(cones, &grading);
    let first = graph.first(alloc)?;
    let closed = close_over(alloc, &graph, &first, 100)?;
    match assemble(alloc, &graph, &closed) {
        Ok(listing) => Ok(Ok(print(alloc, &listing)?)),
        Err(fault) => Ok(Err(fault)),
    }
}

#[test]
fn chambers_stand_in_the_order_of_their_rays(rt: HostRuntime) -> Result<(), Fail> {
    let alloc = rt.alloc();
    let (x, y, sum) = (IVec::of(&[1, 0]), IVec::of(&[0, 1]), IVec::of(&[1, 1]));
    let one_way = assembled(alloc, 2, [x, sum, y].to_vec(alloc)?, 8, 0)??;
    assert_eq!(rt; one_way.as_slice(), PLANE);
    let other_way = assembled(alloc, 2, [y, sum, x].to_vec(alloc)?, 8, 0)??;
    assert_eq!(rt; other_way.as_slice(), PLANE);
    let line = [IVec::of(&[1]), IVec::of(&[2])].to_vec(alloc)?;
    let listing = assembled(alloc, 1, line, 4, 0)??;
    assert_eq!(rt; listing.as_slice(), LINE);
    let (two_x, two_y) = (IVec::of(&[2, 0]), IVec::of(&[0, 2]));
    let crossed = assembled(alloc, 2, [two_x, two_y, sum].to_vec(alloc)?, 8, 6)??;
    assert_eq!(rt; crossed.as_slice(), CROSSED);
    Ok(())
}

#[test]
fn wide_chambers_are_refused(rt: HostRuntime) -> Result<(), Fail> {
    let alloc = rt.alloc();
    let columns = [
        IVec::of(&[-601, 551, 986]),
        IVec::of(&[-932, -997, 924]),
        IVec::of(&[933, -673, 879]),
        IVec::of(&[974, 748, 906]),
    ]
    .to_vec(alloc)?;
    match assembled(alloc, 3, columns, 16, 15)? {
        Err(AssembleFault::Wide { sig, at }) => {
            let least = IVec::of(&[-2000947495615, -311087924078, 8844788235]);
            assert_eq!(rt; sig.words(), [1].as_slice());
            assert_eq!(rt; at.stage, 3);
            assert_eq!(rt; at.what, WideWhat::Entry(least));
            Ok(())
        }
        _ => Err(Fail::new("another answer")),
    }
}
