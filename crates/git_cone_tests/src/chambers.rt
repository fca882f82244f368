//! Chambers worked by hand, and those of planes in four-space as the literature has them.
ghost use Rattle.std.specs.Prelude.{◌≡◌, ◌≤◌, ◌-◌, ◌^◌, ◌<◌, IfOk, IfSome, IsTrue, Contains, length};
ghost use Rattle.git_grading.specs.Gradings.{IsMatrix};
ghost use Rattle.git_ints.specs.Padded.{AreWithin};
ghost use Rattle.git_orbit.specs.Orbits.{AreFaces};
ghost use Rattle.git_orbit.specs.Signatures.{IsLegal};
ghost use Rattle.git_chamber.specs.Chambers.{IsCell, IsFullSet};
ghost use Rattle.git_chamber.specs.declared.cell.Cell.TheVariants.{Good};
ghost use Rattle.git_chamber.specs.Views.{Graph};

use git_chamber::{
    Cell, Chamber, ChamberFault, FanGraph, Side, behind, chamber, cross, first_germ,
};
use git_grading::Grading;
use git_ints::IVec;
use git_machine::{Sig, Successors};
use git_orbit::Cones;
use git_stages::{WideAt, WideWhat, add, are_short};
use std::alloc::Global;
use std::test::Fail;

/// Vectors by their entries.
type Rows = &'static [&'static [i128]];

/// A matrix of `k` rows by its columns, and which of its faces have cones where they are full; of none, all.
struct Given {
    k: usize,
    columns: Rows,
    masks: &'static [u16],
}

/// The chamber at the end of a way over facets with these normals, from the first chamber. Its signature
/// has one word.
struct End {
    way: Rows,
    word: u64,
    rays: Rows,
    facets: Rows,
    weight: &'static [i128],
}

/// A matrix, the number of its cones, and some of its chambers.
struct Case {
    given: Given,
    cones: usize,
    ends: &'static [End],
}

/// Three columns of the plane. The first weight lies on a wall, and all three cones hold the wall.
const TWO_CHAMBERS: Case = Case {
    given: Given {
        k: 2,
        columns: &[&[1, 0], &[1, 1], &[0, 1]],
        masks: &[],
    },
    cones: 3,
    ends: &[
        End {
            way: &[],
            word: 5,
            rays: &[&[1, 0], &[1, 1]],
            facets: &[&[0, 1], &[1, -1]],
            weight: &[2, 1],
        },
        End {
            way: &[&[1, -1]],
            word: 3,
            rays: &[&[0, 1], &[1, 1]],
            facets: &[&[-1, 1], &[1, 0]],
            weight: &[1, 2],
        },
        End {
            way: &[&[1, -1], &[-1, 1]],
            word: 5,
            rays: &[&[1, 0], &[1, 1]],
            facets: &[&[0, 1], &[1, -1]],
            weight: &[2, 1],
        },
    ],
};

/// Between columns that are far out a chamber is narrow: a weight a little beyond the wall would miss it.
const NARROW: Case = Case {
    given: Given {
        k: 2,
        columns: &[&[0, 1], &[999, 1], &[1000, 1], &[1, 0]],
        masks: &[],
    },
    cones: 6,
    ends: &[
        End {
            way: &[],
            word: 41,
            rays: &[&[0, 1], &[999, 1]],
            facets: &[&[-1, 999], &[1, 0]],
            weight: &[999, 2],
        },
        End {
            way: &[&[-1, 999]],
            word: 27,
            rays: &[&[999, 1], &[1000, 1]],
            facets: &[&[-1, 1000], &[1, -999]],
            weight: &[1999, 2],
        },
    ],
};

/// Planes in four-space: the first chamber, and the one behind its three inner walls.
const PLANES: Case = Case {
    given: Given {
        k: 4,
        columns: &[
            &[1, 1, 0, 0],
            &[1, 0, 1, 0],
            &[1, 0, 0, 1],
            &[0, 1, 1, 0],
            &[0, 1, 0, 1],
            &[0, 0, 1, 1],
        ],
        masks: &[63, 62, 61, 59, 55, 47, 31],
    },
    cones: 7,
    ends: &[
        End {
            way: &[],
            word: 113,
            rays: &[&[1, 0, 0, 1], &[1, 0, 1, 0], &[1, 1, 0, 0], &[1, 1, 1, 1]],
            facets: &[
                &[-1, 1, 1, 1],
                &[1, -1, -1, 1],
                &[1, -1, 1, -1],
                &[1, 1, -1, -1],
            ],
            weight: &[4, 2, 2, 2],
        },
        End {
            way: &[&[1, -1, -1, 1], &[1, -1, 1, -1], &[1, 1, -1, -1]],
            word: 15,
            rays: &[&[0, 0, 1, 1], &[0, 1, 0, 1], &[0, 1, 1, 0], &[1, 1, 1, 1]],
            facets: &[
                &[-1, -1, 1, 1],
                &[-1, 1, -1, 1],
                &[-1, 1, 1, -1],
                &[1, 0, 0, 0],
            ],
            weight: &[1, 3, 3, 3],
        },
    ],
};

/// One cone over a square: four facets in three-space.
const SQUARE: Case = Case {
    given: Given {
        k: 3,
        columns: &[&[0, 0, 1], &[1, 0, 1], &[0, 1, 1], &[1, 1, 1]],
        masks: &[15],
    },
    cones: 1,
    ends: &[End {
        way: &[],
        word: 1,
        rays: &[&[0, 0, 1], &[0, 1, 1], &[1, 0, 1], &[1, 1, 1]],
        facets: &[&[-1, 0, 1], &[0, -1, 1], &[0, 1, 0], &[1, 0, 0]],
        weight: &[2, 2, 4],
    }],
};

/// One row: one chamber.
const ONE_ROW: Case = Case {
    given: Given {
        k: 1,
        columns: &[&[2], &[3]],
        masks: &[],
    },
    cones: 1,
    ends: &[End {
        way: &[],
        word: 1,
        rays: &[&[1]],
        facets: &[&[1]],
        weight: &[1],
    }],
};

/// A reducible ideal: two chambers that overlap, each behind a wall of the other.
const OVERLAPPING: Case = Case {
    given: Given {
        k: 2,
        columns: &[&[9, -6], &[1, 0], &[0, 1], &[-2, 3]],
        masks: &[15, 10, 9, 5],
    },
    cones: 3,
    ends: &[
        End {
            way: &[],
            word: 5,
            rays: &[&[0, 1], &[3, -2]],
            facets: &[&[1, 0], &[2, 3]],
            weight: &[3, -1],
        },
        End {
            way: &[&[1, 0]],
            word: 3,
            rays: &[&[-2, 3], &[1, 0]],
            facets: &[&[0, 1], &[3, 2]],
            weight: &[-1, 3],
        },
    ],
};

/// The quadrant's weight (1, 1) lies in a cone that doesn't hold the quadrant.
const CROSSED: Given = Given {
    k: 2,
    columns: &[&[2, 0], &[0, 2], &[1, 1]],
    masks: &[7, 6],
};

/// One cone with four facets, in order, of which the second and the third meet in a ray with an entry past 2^40.
const WIDE: Given = Given {
    k: 3,
    columns: &[
        &[-601, 551, 986],
        &[-932, -997, 924],
        &[933, -673, 879],
        &[974, 748, 906],
    ],
    masks: &[15],
};

/// The vectors with these entries.
fn vectors(alloc: Global, rows: Rows) -> Result<Vec<IVec>, Fail> {
    let mut out = Vec::new(alloc);
    for row in rows {
        if row.is_empty() || row.len() > 6 {
            return Err(Fail::new("no vector has so many entries"));
        }
        add(&mut out, IVec::of(row))?;
    }
    Ok(out)
}

/// Whether these are the vectors with these entries.
fn are_vectors(list: &[IVec], rows: Rows) -> bool {
    for (v, row) in list.iter().zip(rows) {
        if v.as_slice() != *row {
            return false;
        }
    }
    list.len() == rows.len()
}

/// Whether all entries are from -1000 to 1000.
fn are_within(entries: &[i128]) -> bool
    ensures { IsTrue result → AreWithin 1000 entries.now }
{
    for entry in entries {
        if entry.unsigned_abs() > 1000 {
            return false;
        }
    }
    true
}

/// Whether these are the columns of a matrix of `k` rows.
fn is_matrix(k: usize, columns: &[IVec]) -> bool
    ensures { IsTrue result → IsMatrix k columns.now }
{
    if k == 0 || k > 6 || columns.is_empty() || columns.len() > 16 {
        return false;
    }
    for column in columns {
        if column.len() != k || !are_within(column.as_slice()) {
            return false;
        }
    }
    true
}

fn grading(alloc: Global, given: &Given) -> Result<Grading, Fail> {
    let columns = vectors(alloc, given.columns)?;
    if !is_matrix(given.k, &columns) {
        return Err(Fail::new("not a matrix"));
    }
    Ok(Grading::of(alloc, given.k, columns)?)
}

/// The number of faces, where it is of 16 bits.
fn face_count(g: &Grading) -> Option<u16>
    ensures { IfSome result (λ count. count ≡ 2 ^ length g.now.columns) }
{
    if g.r() > 15 {
        return None;
    }
    Some(1 << g.r())
}

/// Whether the mask is one of these; of none, all are.
fn is_listed(masks: &[u16], mask: u16) -> bool {
    masks.is_empty() || masks.contains(&mask)
}

/// Those of these faces that are full, descending. Fails where the one of all columns isn't among them.
fn full_masks(alloc: Global, g: &Grading, masks: &[u16], count: u16) -> Result<Vec<u16>, Fail>
    requires { count ≡ 2 ^ length g.now.columns }
    ensures faces { IfOk result (λ v. AreFaces g.now.k g.now.columns v.items) }
    ensures whole { IfOk result (λ v. Contains v.items (count - 1)) }
{
    let mut out = Vec::new(alloc);
    for i in 0..count {
        let mask = count - 1 - i;
        if is_listed(masks, mask) && g.full(mask) {
            add(&mut out, mask)?;
        }
    }
    if out.is_empty() || out[0] != count - 1 {
        return Err(Fail::new("the columns are not full"));
    }
    Ok(out)
}

/// The graph of the cones.
fn graph(alloc: Global, given: &Given) -> Result<FanGraph, Fail> {
    let grading = grading(alloc, given)?;
    let Some(count) = face_count(&grading) else {
        return Err(Fail::new("too many columns"));
    };
    let faces = full_masks(alloc, &grading, given.masks, count)?;
    let cones = Cones::new(alloc, &grading, &faces)?;
    Ok(FanGraph::new(cones, &grading))
}

/// The place of the vector with these entries.
fn place(list: &[IVec], row: &[i128]) -> Option<usize>
    ensures { IfSome result (λ i. i < length list.now) }
{
    list.iter().position(|v| v.as_slice() == row)
}

/// The chamber of a legal signature.
fn of_legal(alloc: Global, cones: &Cones, sig: &Sig) -> Result<Chamber, ChamberFault>
    requires { IsLegal cones.now sig.now }
    ensures full { IsFullSet cones.now sig.now }
    ensures good { IfOk result (λ c. IsCell cones.now sig.now (Good c)) }
{
    let _cones = &cones.list;
    chamber(alloc, cones, sig)
}

/// The signature behind the facet with this normal.
fn step(alloc: Global, cones: &Cones, sig: &Sig, normal: &[i128]) -> Result<Sig, Fail>
    requires { IsLegal cones.now sig.now }
    ensures { IfOk result (λ s. IsLegal cones.now s) }
{
    let c = of_legal(alloc, cones, sig)?;
    let Some(i) = place(&c.facets, normal) else {
        return Err(Fail::new("no facet has this normal"));
    };
    match cross(alloc, cones, &c, i)? {
        Side::Inner(next) => Ok(next),
        Side::Boundary(_) => Err(Fail::new("nothing lies behind the facet")),
    }
}

/// The signature at the end of a way over facets with these normals, from the first one.
fn end_of(alloc: Global, graph: &FanGraph, way: Rows) -> Result<Sig, Fail>
    ensures { IfOk result (λ s. IsLegal graph.now.fan s) }
{
    let mut sig = graph.first(alloc)?;
    for normal in way {
        sig = step(alloc, graph.cones(), &sig, normal)?;
    }
    Ok(sig)
}

/// Whether a way ends at its chamber.
fn ends(alloc: Global, graph: &FanGraph, end: &End) -> Result<bool, Fail> {
    let sig = end_of(alloc, graph, end.way)?;
    let c = of_legal(alloc, graph.cones(), &sig)?;
    Ok(
        c.sig.words() == [end.word].as_slice()
            && are_vectors(&c.rays, end.rays)
            && are_vectors(&c.facets, end.facets)
            && c.weight.as_slice() == end.weight,
    )
}

/// Whether nothing lies behind these walls of a chamber with these rays, each being its own evidence.
fn all_boundary(
    alloc: Global,
    cones: &Cones,
    rays: &[IVec],
    normals: &[IVec],
) -> Result<bool, Fail> {
    if !are_short(cones.k, rays) || !are_short(cones.k, normals) || rays.len() > 65536 {
        return Ok(false);
    }
    for normal in normals {
        match behind(alloc, cones, rays, normal)? {
            Side::Boundary(m) => {
                if m != *normal {
                    return Ok(false);
                }
            }
            Side::Inner(_) => return Ok(false),
        }
    }
    Ok(true)
}

/// The chamber of the first signature, which is that of the first cone alone, or why it has none.
fn first_chamber(alloc: Global, given: &Given) -> Result<Result<Chamber, ChamberFault>, Fail> {
    let graph = graph(alloc, given)?;
    let sig = graph.first(alloc)?;
    if sig.words() != [1].as_slice() {
        return Err(Fail::new("another signature"));
    }
    Ok(of_legal(alloc, graph.cones(), &sig))
}

#[test]
fn ways_end_at_their_chambers(rt: HostRuntime) -> Result<(), Fail> {
    let alloc = rt.alloc();
    for case in &[TWO_CHAMBERS, NARROW, PLANES, SQUARE, ONE_ROW, OVERLAPPING] {
        let graph = graph(alloc, &case.given)?;
        assert_eq!(rt; graph.cones().list.len(), case.cones);
        for end in case.ends {
            assert!(rt;
                ends(alloc, &graph, end)?,
                "{:?} of {:?}",
                end.way,
                case.given.columns
            );
        }
    }
    Ok(())
}

/// Each facet of the square's chamber is boundary, with a facet of the cone for it.
#[test]
fn square_has_no_neighbours(rt: HostRuntime) -> Result<(), Fail> {
    let alloc = rt.alloc();
    let graph = graph(alloc, &SQUARE.given)?;
    let end = &SQUARE.ends[0];
    let rays = vectors(alloc, end.rays)?;
    let facets = vectors(alloc, end.facets)?;
    assert!(rt; all_boundary(alloc, graph.cones(), &rays, &facets)?);
    let sig = graph.first(alloc)?;
    assert_eq!(rt; graph.expand(alloc, &sig)?.next.len(), 0);
    assert_eq!(rt; graph.r(), 4);
    assert_eq!(rt; graph.width(), 1);
    Ok(())
}

/// Nothing lies behind the one facet of one row.
#[test]
fn one_row_has_one_boundary(rt: HostRuntime) -> Result<(), Fail> {
    let alloc = rt.alloc();
    let graph = graph(alloc, &ONE_ROW.given)?;
    let sig = graph.first(alloc)?;
    let c = of_legal(alloc, graph.cones(), &sig)?;
    let Some(facet) = place(&c.facets, &[1]) else {
        return Err(Fail::new("no facet"));
    };
    match cross(alloc, graph.cones(), &c, facet)? {
        Side::Boundary(m) => assert_eq!(rt; m, IVec::of(&[1])),
        Side::Inner(_) => assert!(rt; false),
    }
    Ok(())
}

#[test]
fn first_germs_begin_with_the_sum(rt: HostRuntime) -> Result<(), Fail> {
    let alloc = rt.alloc();
    let grading = grading(alloc, &ONE_ROW.given)?;
    assert!(rt; are_vectors(first_germ(&grading).as_slice(), &[&[5], &[1]]));
    Ok(())
}

/// The chamber of the first cone holds its weight in another cone too, and is marked by it.
#[test]
fn crossed_chamber_has_a_mark(rt: HostRuntime) -> Result<(), Fail> {
    let alloc = rt.alloc();
    let Ok(c) = first_chamber(alloc, &CROSSED)? else {
        return Err(Fail::new("no chamber"));
    };
    assert_eq!(rt; c.weight, IVec::of(&[1, 1]));
    assert_eq!(rt; c.crossed, Some(1));
    assert!(rt; c.sig.words() == [1].as_slice());
    Ok(())
}

#[test]
fn refused_signatures_have_evidence(rt: HostRuntime) -> Result<(), Fail> {
    let alloc = rt.alloc();
    let what = WideWhat::Entry(IVec::of(&[-2000947495615, -311087924078, 8844788235]));
    let Err(fault) = first_chamber(alloc, &WIDE)? else {
        return Err(Fail::new("a chamber"));
    };
    assert_eq!(rt; fault, ChamberFault::Wide(WideAt { stage: 3, what }));
    Ok(())
}
