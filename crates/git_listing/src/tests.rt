//! Values between threads, texts of both versions, and the kinds of faults.
ghost use Rattle.std.specs.Prelude.{◌≡◌, ◌⊎◌, false, None, IfOk};
ghost use Rattle.git_listing.specs.Listings.{FitsVersion};
ghost use Rattle.git_listing.specs.Views.{listing_of};

use super::*;
use git_ints::IVec;
use git_lines::FormKind;
use std::alloc::Global;
use std::test::Fail;

/// Takes a type that threads may share and move.
fn shared<T: Send + Sync + Drop>(_value: Option<T>) {}

#[test]
fn listings_may_be_shared(_rt: HostRuntime) {
    shared::<Listing>(None);
}

/// A listing of one chamber, the quadrant, with its second facet inner.
fn quadrant(
    alloc: Global,
    version: u32,
    crossed: Option<u32>,
    matched: bool,
) -> Result<Listing, Fail>
    requires { ((version ≡ 1) × (crossed ≡ None) × (matched ≡ false)) ⊎ (version ≡ 2) }
    ensures { IfOk result (λ l. FitsVersion (listing_of l)) }
{
    let facets = [
        ListedFacet {
            normal: IVec::of(&[0, 1]),
            side: ListedSide::Boundary,
        },
        ListedFacet {
            normal: IVec::of(&[1, 0]),
            side: ListedSide::Inner {
                chamber: 7,
                matched,
            },
        },
    ];
    let chamber = ListedChamber {
        rays: [IVec::of(&[0, 1]), IVec::of(&[1, 0])].to_vec(alloc)?,
        weight: IVec::of(&[1, 1]),
        crossed,
        facets: facets.to_vec(alloc)?,
    };
    Ok(Listing {
        version,
        k: 2,
        r: 3,
        cones: 4,
        chambers: Vec::from_array(alloc, [chamber])?,
    })
}

#[test]
fn listings_are_printed_in_their_version(rt: HostRuntime) -> Result<(), Fail> {
    let alloc = rt.alloc();
    let old = quadrant(alloc, 1, None, false)?;
    assert_eq!(rt;
        print(alloc, &old)?.as_slice(),
        b"gitfan-listing 1\ngrading 2 3\ncones 4\nchambers 1\nchamber 1\nray 0 1\nray 1 0\nweight 1 1\nfacet 0 1 boundary\nfacet 1 0 inner 7\nend\n".as_slice()
    );
    let plain = quadrant(alloc, 2, None, false)?;
    assert_eq!(rt;
        print(alloc, &plain)?.as_slice(),
        b"gitfan-listing 2\ngrading 2 3\ncones 4\nchambers 1\nchamber 1\nray 0 1\nray 1 0\nweight 1 1\nfacet 0 1 boundary\nfacet 1 0 inner 7 unmatched\nend\n".as_slice()
    );
    let marked = quadrant(alloc, 2, Some(3), true)?;
    assert_eq!(rt;
        print(alloc, &marked)?.as_slice(),
        b"gitfan-listing 2\ngrading 2 3\ncones 4\nchambers 1\nchamber 1\nray 0 1\nray 1 0\nweight 1 1\ncrossed 3\nfacet 0 1 boundary\nfacet 1 0 inner 7 matched\nend\n".as_slice()
    );
    Ok(())
}

const OLD: &str =
    "gitfan-listing 1\ngrading 2 3\ncones 4\nchambers 1\nchamber 1\nray 0 1\nray 1 0\nweight 1 1\nfacet 0 1 boundary\nfacet 1 0 inner 7\nend\n";

const NEW: &str =
    "gitfan-listing 2\ngrading 2 3\ncones 4\nchambers 1\nchamber 1\nray 0 1\nray 1 0\nweight 1 1\ncrossed 3\nfacet 0 1 boundary\nfacet 1 0 inner 7 matched\nend\n";

/// The line of the first fault and its kind by number, (0, 0) for what is read whole, (0, 1) where bytes are left.
fn fault(alloc: Global, bytes: &[u8]) -> (u32, u8) {
    if bytes.len() > 1000 {
        return (0, 9);
    }
    match read(alloc, bytes) {
        Ok((_, used)) => (0, (used < bytes.len()) as u8),
        Err(ListingFault::NoMemory) => (0, 8),
        Err(ListingFault::BadListing { line, kind }) => (
            line,
            match kind {
                FormKind::Header => 1,
                FormKind::Number => 2,
                FormKind::Count => 3,
                FormKind::Range => 4,
                FormKind::Syntax => 5,
                FormKind::Truncated => 6,
                FormKind::Trailing => 7,
            },
        ),
    }
}

/// Which text, what stands there once, what is put there instead, and the first fault.
const CHANGES: [(&str, &str, &str, (u32, u8)); 24] = [
    (OLD, "end\n", "end\n", (0, 0)),
    (NEW, "end\n", "end\nmore", (0, 1)),
    (OLD, "end\n", "end", (11, 6)),
    (OLD, "end\n", "", (11, 6)),
    (OLD, "listing 1", "listing 2", (10, 3)),
    (OLD, "listing 1", "listing 3", (1, 1)),
    (OLD, "listing 1", "listing  1", (1, 1)),
    (NEW, "listing 2", "listing 1", (9, 5)),
    (OLD, "grading 2 3", "grading 7 3", (2, 4)),
    (OLD, "grading 2 3", "grading 2 17", (2, 4)),
    (OLD, "cones 4", "cones 0", (3, 4)),
    (OLD, "cones 4", "cones 65537", (3, 4)),
    (OLD, "cones 4", "cones 04", (3, 2)),
    (OLD, "chamber 1", "chamber 2", (5, 4)),
    (OLD, "ray 0 1", "ray  0 1", (6, 5)),
    (OLD, "ray 0 1", "ray 0", (6, 3)),
    (OLD, "ray 0 1", "ray 0 -0", (6, 2)),
    (OLD, "ray 0 1", "ray 0 1099511627777", (6, 4)),
    (OLD, "weight 1 1", "weight 1 1 ", (8, 5)),
    (OLD, "weight 1 1", "weight 1 1 1", (8, 3)),
    (OLD, "0 1 boundary", "0 1 outer", (9, 5)),
    (NEW, "inner 7 matched", "inner 7", (11, 3)),
    (NEW, "crossed 3", "crossed 65536", (9, 4)),
    (NEW, "7 matched", "7 matched 1", (11, 3)),
];

#[test]
fn changed_listings_have_their_first_fault(rt: HostRuntime) -> Result<(), Fail> {
    let alloc = rt.alloc();
    for (text, old, new, wanted) in CHANGES {
        let changed = text.replacen(alloc, old, new, 1)?;
        assert!(rt; fault(alloc, changed.as_bytes()) == wanted, "at {new}");
    }
    assert!(rt; fault(alloc, b"") == (1, 6));
    Ok(())
}
