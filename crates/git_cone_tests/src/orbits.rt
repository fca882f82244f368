//! Cones of gradings worked by hand.
ghost use Rattle.std.specs.Prelude.{◌≡◌, ◌≤◌, ◌<◌, ◌^◌, IfOk, IfSome, IsTrue, All, length};
ghost use Rattle.git_defs.specs.Vectors.{AllOfLength};
ghost use Rattle.git_grading.specs.Gradings.{IsMatrix};
ghost use Rattle.git_ints.specs.Padded.{AreWithin};
ghost use Rattle.git_orbit.specs.Orbits.{AreFaces};

use git_base::NoMemory;
use git_grading::Grading;
use git_ints::IVec;
use git_orbit::{Cones, ConesFault, Germ, held, sign};
use git_stages::{WideAt, WideWhat, add, are_short, is_small};
use std::alloc::Global;
use std::test::Fail;

/// The entries of vectors.
type Rows = &'static [&'static [i128]];

/// A matrix by its columns, and which of its full faces are taken: those with masks below `count` and at most
/// `most` columns, but for those that are left out.
#[derive(Clone, Copy)]
struct Faces {
    k: usize,
    columns: Rows,
    count: u16,
    most: u32,
    left_out: &'static [u16],
}

/// A cone by its greatest and its least mask, and its rays.
type Found = (u16, u16, Rows);

/// Three columns of the plane.
const THREE: Faces = Faces {
    k: 2,
    columns: &[&[1, 0], &[1, 1], &[0, 1]],
    count: 8,
    most: 16,
    left_out: &[],
};

/// Four columns of the plane.
const FOUR: Faces = Faces {
    k: 2,
    columns: &[&[1, 0], &[1, 1], &[1, 2], &[0, 1]],
    count: 16,
    most: 16,
    left_out: &[],
};

/// Four columns and four of their faces: the first two have one cone.
const OVERLAPPING: Faces = Faces {
    k: 2,
    columns: &[&[9, -6], &[1, 0], &[0, 1], &[-2, 3]],
    count: 16,
    most: 16,
    left_out: &[14, 13, 12, 11, 7, 6, 3],
};

/// The corners of a square and its centre, twice.
const SQUARE: Faces = Faces {
    k: 3,
    columns: &[
        &[0, 0, 1],
        &[2, 0, 1],
        &[0, 2, 1],
        &[2, 2, 1],
        &[1, 1, 1],
        &[2, 2, 2],
    ],
    count: 64,
    most: 16,
    left_out: &[],
};

/// Columns whose cone has wide facets.
const STEEP: Faces = Faces {
    k: 6,
    columns: &[
        &[1, 999, 0, 0, 0, 0],
        &[0, 1, 999, 0, 0, 0],
        &[0, 0, 1, 999, 0, 0],
        &[0, 0, 0, 1, 999, 0],
        &[0, 0, 0, 0, 1, 999],
        &[0, 0, 0, 0, 0, 1],
    ],
    count: 64,
    most: 16,
    left_out: &[],
};

/// Twelve columns of the plane, two at a time, with masks below `count`.
const fn pairs(count: u16) -> Faces {
    Faces {
        k: 2,
        columns: &[
            &[1, 0],
            &[1, 1],
            &[1, 2],
            &[1, 3],
            &[1, 4],
            &[1, 5],
            &[1, 6],
            &[1, 7],
            &[1, 8],
            &[1, 9],
            &[1, 10],
            &[1, 11],
        ],
        count,
        most: 2,
        left_out: &[],
    }
}

/// The vectors with these entries, but for those with none or with more than six.
fn vectors(alloc: Global, rows: &[&[i128]]) -> Result<Vec<IVec>, NoMemory> {
    let mut out = Vec::new(alloc);
    for row in rows {
        if !row.is_empty() && row.len() <= 6 {
            add(&mut out, IVec::of(row))?;
        }
    }
    Ok(out)
}

/// Whether all entries are at most 1,000 in absolute value.
fn are_entries(entries: &[i128]) -> bool
    ensures { IsTrue result → AreWithin 1000 entries.now }
{
    for entry in entries {
        if entry.unsigned_abs() > 1000 {
            return false;
        }
    }
    true
}

/// Whether these are columns with `k` entries within the limits of a matrix.
fn are_columns(k: usize, columns: &[IVec]) -> bool
    ensures lengths { IsTrue result → AllOfLength k columns.now }
    ensures entries { IsTrue result → All (AreWithin 1000) columns.now }
{
    for v in columns {
        if v.len() != k || !are_entries(v.as_slice()) {
            return false;
        }
    }
    true
}

/// Whether these are the columns of a matrix with `k` rows.
fn is_matrix(k: usize, columns: &[IVec]) -> bool
    ensures { IsTrue result → IsMatrix k columns.now }
{
    1 <= k && k <= 6 && !columns.is_empty() && columns.len() <= 16 && are_columns(k, columns)
}

/// The full faces that are taken, descending.
fn full_masks(alloc: Global, g: &Grading, faces: &Faces) -> Result<Vec<u16>, NoMemory>
    requires { faces.now.count ≤ 2 ^ length g.now.columns }
    ensures { IfOk result (λ v. AreFaces g.now.k g.now.columns v.items) }
{
    let mut out = Vec::new(alloc);
    for i in 0..faces.count {
        let mask = faces.count - 1 - i;
        if !faces.left_out.contains(&mask) && mask.count_ones() <= faces.most && g.full(mask) {
            add(&mut out, mask)?;
        }
    }
    Ok(out)
}

/// The cones of the faces that are taken, where they are those of a matrix.
fn cones(alloc: Global, faces: &Faces) -> Result<Option<Result<Cones, ConesFault>>, Fail> {
    let columns = vectors(alloc, faces.columns)?;
    let size = columns.len();
    if !is_matrix(faces.k, &columns) || size >= 16 || faces.count > 1 << size {
        return Ok(None);
    }
    let grading = Grading::of(alloc, faces.k, columns)?;
    let masks = full_masks(alloc, &grading, faces)?;
    Ok(Some(Cones::new(alloc, &grading, &masks)))
}

/// Whether the cones are these, in this order.
fn are_found(alloc: Global, cones: &Cones, found: &[Found]) -> Result<bool, Fail> {
    for (cone, (greatest, least, rays)) in cones.list.iter().zip(found) {
        let rays = vectors(alloc, rays)?;
        if cone.greatest != *greatest || cone.least != *least || cone.canon.rays != rays {
            return Ok(false);
        }
    }
    Ok(cones.list.len() == found.len())
}

#[test]
fn distinct_cones(rt: HostRuntime) -> Result<(), Fail> {
    let alloc = rt.alloc();
    let cases: [(&Faces, &[Found]); 2] = [
        (
            &THREE,
            &[
                (7, 5, &[&[0, 1], &[1, 0]]),
                (6, 6, &[&[0, 1], &[1, 1]]),
                (3, 3, &[&[1, 0], &[1, 1]]),
            ],
        ),
        (
            &OVERLAPPING,
            &[
                (15, 9, &[&[-2, 3], &[3, -2]]),
                (10, 10, &[&[-2, 3], &[1, 0]]),
                (5, 5, &[&[0, 1], &[3, -2]]),
            ],
        ),
    ];
    for (faces, found) in cases {
        let Some(cones) = cones(alloc, faces)? else {
            return Ok(assert!(rt; false));
        };
        assert!(rt; are_found(alloc, &cones?, found)?);
    }
    Ok(())
}

/// The cone of the square, four cones of three corners, and four of two neighbouring corners with the centre.
#[test]
fn repeated_columns_make_no_new_cone(rt: HostRuntime) -> Result<(), Fail> {
    let alloc = rt.alloc();
    let Some(found) = cones(alloc, &SQUARE)? else {
        return Ok(assert!(rt; false));
    };
    let found = found?;
    assert_eq!(rt; found.k, 3);
    assert_eq!(rt; found.list.len(), 9);
    assert_eq!(rt; found.list[0].greatest, 63);
    assert_eq!(rt; found.list[0].least, 15);
    Ok(())
}

#[test]
fn facets_of_a_cone(rt: HostRuntime) -> Result<(), Fail> {
    let alloc = rt.alloc();
    let Some(found) = cones(alloc, &THREE)? else {
        return Ok(assert!(rt; false));
    };
    let found = found?;
    let facets = vectors(alloc, &[&[-1, 1], &[1, 0]])?;
    assert!(rt; 1 < found.list.len());
    assert_eq!(rt; found.list[1].canon.facets, facets);
    Ok(())
}

/// The germ of some vectors, where they are one to eight with `k` entries.
fn germ(k: usize, vs: &[IVec]) -> Option<Germ>
    ensures { IfSome result (λ g. AllOfLength k g) }
{
    if vs.is_empty() || vs.len() > 8 || !are_short(k, vs) {
        return None;
    }
    Some(Germ::of(vs))
}

/// Whether the cones hold the germ of these vectors as the words say.
fn has_words(alloc: Global, cones: &Cones, rows: &[&[i128]], words: &[u64]) -> Result<bool, Fail> {
    let Some(germ) = germ(cones.k, &vectors(alloc, rows)?) else {
        return Ok(false);
    };
    Ok(cones.signature(alloc, &germ)?.words() == words)
}

/// Whether the signature of this weight has these words.
fn has_words_at(alloc: Global, cones: &Cones, w: &IVec, words: &[u64]) -> Result<bool, Fail> {
    if w.len() != cones.k || !is_small(w) {
        return Ok(false);
    }
    Ok(cones.signature_of_weight(alloc, w)?.words() == words)
}

#[test]
fn signatures_of_germs(rt: HostRuntime) -> Result<(), Fail> {
    let alloc = rt.alloc();
    let cases: [(&Faces, &[&[i128]], u64); 3] = [
        (&THREE, &[&[2, 2], &[1, 0], &[0, 1]], 5),
        (&THREE, &[&[2, 2], &[0, 1], &[1, 0]], 3),
        (&OVERLAPPING, &[&[8, -2], &[1, 0], &[0, 1]], 5),
    ];
    for (faces, rows, word) in cases {
        let Some(cones) = cones(alloc, faces)? else {
            return Ok(assert!(rt; false));
        };
        assert!(rt; has_words(alloc, &cones?, rows, &[word])?);
    }
    Ok(())
}

/// Whether the cones that hold each of the vectors are in these words.
fn are_held(alloc: Global, cones: &Cones, vs: &[IVec], words: &[u64]) -> Result<bool, Fail> {
    if !are_short(cones.k, vs) {
        return Ok(false);
    }
    Ok(cones.holding(alloc, vs)?.words() == words)
}

#[test]
fn cones_that_hold_each(rt: HostRuntime) -> Result<(), Fail> {
    let alloc = rt.alloc();
    let Some(cones) = cones(alloc, &THREE)? else {
        return Ok(assert!(rt; false));
    };
    let cones = cones?;
    let cases: [(&[&[i128]], u64); 4] = [
        (&[], 7),
        (&[&[2, 1]], 5),
        (&[&[1, 0], &[1, 1]], 5),
        (&[&[2, 1], &[1, 2]], 1),
    ];
    for (rows, word) in cases {
        assert!(rt; are_held(alloc, &cones, &vectors(alloc, rows)?, &[word])?);
    }
    Ok(())
}

/// Twelve columns in the plane, two at a time: of the cones, numbered by descending mask, those that hold
/// the first column. The 65th cone has a word of its own.
#[test]
fn signatures_of_weights(rt: HostRuntime) -> Result<(), Fail> {
    let alloc = rt.alloc();
    let cases: [(Faces, usize, &[i128], &[u64]); 8] = [
        (THREE, 3, &[2, 2], &[7]),
        (THREE, 3, &[2, 1], &[5]),
        (THREE, 3, &[1, 2], &[3]),
        (THREE, 3, &[0, 0], &[7]),
        (THREE, 3, &[-1, 2], &[0]),
        (pairs(2304), 63, &[1, 0], &[0x6910820404020080]),
        (pairs(2560), 64, &[1, 0], &[0xd221040808040100]),
        (pairs(3072), 65, &[1, 0], &[0xa442081010080200, 1]),
    ];
    for (faces, number, weight, words) in cases {
        let Some(cones) = cones(alloc, &faces)? else {
            return Ok(assert!(rt; false));
        };
        let cones = cones?;
        assert_eq!(rt; cones.list.len(), number);
        for w in &vectors(alloc, &[weight])? {
            assert!(rt; has_words_at(alloc, &cones, w, words)?);
        }
    }
    Ok(())
}

/// Whether the cone with number `i` holds the germ.
fn is_held(cones: &Cones, i: usize, germ: &Germ) -> bool
    requires within { i < length cones.now.list }
    requires lengths { AllOfLength cones.now.k germ.now }
{
    held(&cones.list[i].canon, germ)
}

/// Whether the signature of a germ has just the cones that hold it, asked one by one.
fn is_as_asked(alloc: Global, cones: &Cones, germ: &Germ) -> Result<bool, Fail>
    requires { AllOfLength cones.now.k germ.now }
{
    let sig = cones.signature(alloc, germ)?;
    for i in 0..64 * sig.width().min(1024) as u32 {
        let at = i as usize;
        if at < cones.list.len() && sig.has(i) != is_held(cones, at, germ) {
            return Ok(false);
        }
    }
    Ok(true)
}

/// Four columns: the signatures by distinct facets are those by cones one by one.
#[test]
fn signatures_are_as_asked(rt: HostRuntime) -> Result<(), Fail> {
    let alloc = rt.alloc();
    let germs: [Rows; 7] = [
        &[&[1, 0], &[0, 1]],
        &[&[1, 1], &[1, 0]],
        &[&[1, 1], &[0, 1]],
        &[&[1, 2], &[0, 1]],
        &[&[1, 2], &[1, 0]],
        &[&[-1, 2], &[1, 0]],
        &[&[0, 0], &[3, 4]],
    ];
    let Some(found) = cones(alloc, &FOUR)? else {
        return Ok(assert!(rt; false));
    };
    let found = found?;
    for rows in germs {
        let Some(germ) = germ(found.k, &vectors(alloc, rows)?) else {
            return Ok(assert!(rt; false));
        };
        assert!(rt; is_as_asked(alloc, &found, &germ)?);
    }
    Ok(())
}

/// The sign at a germ of three entries, where the normal has three.
fn sign_of(normal: &[IVec], germ: &Germ) -> Option<i32>
    requires { AllOfLength 3 germ.now }
{
    if normal.len() != 1 || !are_short(3, normal) {
        return None;
    }
    Some(sign(&normal[0], germ))
}

/// The sign is that of the first product that isn't 0.
#[test]
fn signs_of_germs(rt: HostRuntime) -> Result<(), Fail> {
    let alloc = rt.alloc();
    let rows: Rows = &[&[1, 1, 0], &[0, 0, 0], &[1, 0, -1], &[0, 0, 3]];
    let signs: [([i128; 3], i32); 8] = [
        ([1, 0, 0], 1),
        ([-1, 0, 5], -1),
        ([1, -1, 0], 1),
        ([-1, 1, 0], -1),
        ([0, 0, 1], -1),
        ([1, -1, 1], 1),
        ([2, -2, 2], 1),
        ([0, 0, 0], 0),
    ];
    let Some(germ) = germ(3, &vectors(alloc, rows)?) else {
        return Ok(assert!(rt; false));
    };
    for (normal, found) in signs {
        assert_eq!(rt; sign_of(&vectors(alloc, &[&normal])?, &germ), Some(found));
    }
    Ok(())
}

#[test]
fn steep_columns_are_wide(rt: HostRuntime) -> Result<(), Fail> {
    let alloc = rt.alloc();
    let least = IVec::of(&[-995009990004999, 996005996001, -997002999, 998001, -999, 1]);
    let wide = ConesFault::Wide {
        mask: 63,
        at: WideAt {
            stage: 6,
            what: WideWhat::Entry(least),
        },
    };
    let Some(found) = cones(alloc, &STEEP)? else {
        return Ok(assert!(rt; false));
    };
    assert_eq!(rt; found.err(), Some(wide));
    Ok(())
}

/// Cones may be shared and moved between threads.
#[test]
fn cones_cross_threads(rt: HostRuntime) -> Result<(), Fail> {
    let Some(found) = cones(rt.alloc(), &THREE)? else {
        return Ok(assert!(rt; false));
    };
    assert_eq!(rt; crossed(found?).list.len(), 3);
    Ok(())
}

fn crossed<T: Send + Sync>(value: T) -> T {
    value
}
