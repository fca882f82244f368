//! Check texts and what is answered of them: as they stand, with a few lines changed, and for each reason one text that
//! has it first.
use crate::samples::{
    CROSSED, MONOMIAL, OLD, OVERLAP, PLANES, TURNED, TWO, UNREACHED, WIDE_CHAMBER, WIDE_CONE,
};
use git_base::Status;
use git_check_replies::check_answer;
use std::alloc::Global;
use std::test::Fail;

/// A line of a text, by its number from 1, and what stands in its place.
type Change = (usize, &'static str);

/// A name, changes, and the answer.
type Row = (&'static str, &'static [Change], &'static str);

const TWO_ROWS: &[Row] = &[
    ("as it stands", &[], "valid\n"),
    (
        "another number of columns",
        &[(8, "grading 2 4\n")],
        "invalid 8 shape\n",
    ),
    (
        "a mask out of turn",
        &[
            (28, "face 5 free 1\n"),
            (29, "g -T(1)*T(3)*y+1\n"),
            (30, "face 6 free 1\n"),
            (31, "g -T(2)*T(3)*y+1\n"),
        ],
        "invalid 28 verdictmissing\n",
    ),
    (
        "masks ascending",
        &[
            (26, "face 3 free 1\n"),
            (27, "g -T(1)*T(2)*y+1\n"),
            (28, "face 5 free 1\n"),
            (29, "g -T(1)*T(3)*y+1\n"),
            (30, "face 6 free 1\n"),
            (31, "g -T(2)*T(3)*y+1\n"),
            (32, "face 7 free 1\n"),
            (33, "g -T(1)*T(2)*T(3)*y+1\n"),
        ],
        "invalid 26 verdictmissing\n",
    ),
    (
        "face 5 left out",
        &[(25, "faces 3\n"), (30, ""), (31, "")],
        "invalid 30 verdictmissing\n",
    ),
    (
        "the last face left out",
        &[(25, "faces 3\n"), (32, ""), (33, "")],
        "invalid 32 verdictmissing\n",
    ),
    (
        "no certificates",
        &[
            (25, "faces 0\n"),
            (26, ""),
            (27, ""),
            (28, ""),
            (29, ""),
            (30, ""),
            (31, ""),
            (32, ""),
            (33, ""),
        ],
        "invalid 26 verdictmissing\n",
    ),
    (
        "a face too many",
        &[(25, "faces 5\n"), (34, "face 1 free 1\ng -T(1)*y+1\nend\n")],
        "invalid 34 verdictmissing\n",
    ),
    (
        "a wrong certificate of face 6",
        &[(29, "g T(2)\n")],
        "invalid 28 certrefused\n",
    ),
    (
        "another number of cones",
        &[(9, "cones 4\n")],
        "invalid 9 conecount\n",
    ),
    (
        "chamber 1 twice",
        &[
            (10, "chambers 3\n"),
            (
                17,
                "chamber 2\nray 0 1\nray 1 1\nweight 1 2\nfacet -1 1 inner 3 matched\nfacet 1 0 boundary\nchamber 3\n",
            ),
        ],
        "invalid 17 order\n",
    ),
    (
        "rays that aren't sorted",
        &[(12, "ray 1 1\n"), (13, "ray 0 1\n")],
        "invalid 17 order\n",
    ),
    (
        "a ray that isn't primitive",
        &[(12, "ray 0 2\n")],
        "invalid 11 rays\n",
    ),
    (
        "the greatest entry",
        &[(12, "ray 0 1099511627776\n")],
        "invalid 11 rays\n",
    ),
    (
        "a ray that no cone holds",
        &[(12, "ray -1 1\n")],
        "invalid 11 rays\n",
    ),
    ("a ray alone", &[(13, "")], "invalid 11 rays\n"),
    (
        "a ray too many",
        &[(12, "ray 0 1\nray 1 2\n")],
        "invalid 11 rays\n",
    ),
    (
        "another weight",
        &[(14, "weight 1 3\n")],
        "invalid 14 weight\n",
    ),
    (
        "a mark of no crossed chamber",
        &[(14, "weight 1 2\ncrossed 2\n")],
        "invalid 11 mark\n",
    ),
    (
        "another normal",
        &[(16, "facet 1 1 boundary\n")],
        "invalid 11 facetset\n",
    ),
    (
        "normals that aren't sorted",
        &[
            (15, "facet 1 0 boundary\n"),
            (16, "facet -1 1 inner 2 matched\n"),
        ],
        "invalid 11 facetset\n",
    ),
    (
        "an inner facet as boundary",
        &[(15, "facet -1 1 boundary\n")],
        "invalid 15 facetkind\n",
    ),
    (
        "a boundary as inner",
        &[(16, "facet 1 0 inner 2 matched\n")],
        "invalid 16 facetkind\n",
    ),
    (
        "a chamber as its own neighbour",
        &[(15, "facet -1 1 inner 1 matched\n")],
        "invalid 15 neighbour\n",
    ),
    (
        "a neighbour that isn't listed",
        &[(22, "facet 1 -1 inner 3 matched\n")],
        "invalid 22 neighbour\n",
    ),
    (
        "chamber 2 left out",
        &[
            (10, "chambers 1\n"),
            (17, ""),
            (18, ""),
            (19, ""),
            (20, ""),
            (21, ""),
            (22, ""),
        ],
        "invalid 15 neighbour\n",
    ),
    (
        "a shared wall as none",
        &[(15, "facet -1 1 inner 2 unmatched\n")],
        "invalid 15 matchkind\n",
    ),
];

const OLD_ROWS: &[Row] = &[
    ("as it stands", &[], "valid\n"),
    (
        "chamber 2 left out",
        &[
            (10, "chambers 1\n"),
            (17, ""),
            (18, ""),
            (19, ""),
            (20, ""),
            (21, ""),
            (22, ""),
        ],
        "invalid 15 neighbour\n",
    ),
    (
        "chamber 1 twice",
        &[
            (10, "chambers 3\n"),
            (
                17,
                "chamber 2\nray 0 1\nray 1 1\nweight 1 2\nfacet -1 1 inner 3\nfacet 1 0 boundary\nchamber 3\n",
            ),
        ],
        "invalid 17 order\n",
    ),
    (
        "face 5 left out",
        &[(25, "faces 3\n"), (30, ""), (31, "")],
        "invalid 30 verdictmissing\n",
    ),
    (
        "a wrong certificate of face 6",
        &[(29, "g T(2)\n")],
        "invalid 28 certrefused\n",
    ),
    (
        "another weight",
        &[(14, "weight 1 3\n")],
        "invalid 14 weight\n",
    ),
    (
        "a chamber that isn't there",
        &[(10, "chambers 3\n")],
        "refused listing 23 syntax\n",
    ),
    (
        "a neighbour past the limit",
        &[(15, "facet -1 1 inner 65537\n")],
        "refused listing 15 range\n",
    ),
    (
        "an entry past the limit",
        &[(12, "ray 0 1099511627777\n")],
        "refused listing 12 range\n",
    ),
    (
        "faces past the limit",
        &[(25, "faces 65537\n")],
        "refused certs 25 range\n",
    ),
    ("no last line", &[(34, "")], "refused certs 34 truncated\n"),
    (
        "a line after the last",
        &[(34, "end\nx\n")],
        "refused certs 35 trailing\n",
    ),
];

const CROSSED_ROWS: &[Row] = &[
    ("as it stands", &[], "valid\n"),
    ("no mark", &[(16, "")], "invalid 12 mark\n"),
    ("another mark", &[(16, "crossed 0\n")], "invalid 12 mark\n"),
];

const TURNED_ROWS: &[Row] = &[
    ("as it stands", &[], "valid\n"),
    (
        "the first chamber left out",
        &[
            (11, "chambers 1\n"),
            (19, ""),
            (20, ""),
            (21, ""),
            (22, ""),
            (23, ""),
            (24, ""),
        ],
        "invalid 11 firstmissing\n",
    ),
    (
        "a wall that isn't shared as one",
        &[(24, "facet 1 -1 inner 1 matched\n")],
        "invalid 24 matchkind\n",
    ),
];

const OVERLAP_ROWS: &[Row] = &[
    ("as it stands", &[], "valid\n"),
    (
        "two reasons, the later one at the earlier line",
        &[(23, "facet 0 1 inner 2 matched\n"), (28, "weight 3 -2\n")],
        "invalid 28 weight\n",
    ),
];

const UNREACHED_ROWS: &[Row] = &[
    ("as it stands", &[], "invalid 25 notreached\n"),
    (
        "its neighbour is its own",
        &[(30, "facet 1 0 inner 2\n")],
        "invalid 30 neighbour\n",
    ),
];

const MONOMIAL_ROWS: &[Row] = &[("as it stands", &[], "invalid 27 monomial\n")];

const WIDE_CONE_ROWS: &[Row] = &[("as it stands", &[], "invalid 13 widecone\n")];

const WIDE_CHAMBER_ROWS: &[Row] = &[("as it stands", &[], "invalid 12 widechamber\n")];

const PLANES_ROWS: &[Row] = &[
    ("as it stands", &[], "valid\n"),
    (
        "fewer columns",
        &[(11, "grading 4 5\n")],
        "invalid 11 shape\n",
    ),
    (
        "a wrong sign in face 62",
        &[(102, "g T(3)*T(4)+T(2)*T(5)\n")],
        "invalid 101 certrefused\n",
    ),
    (
        "another number of cones",
        &[(12, "cones 8\n")],
        "invalid 12 conecount\n",
    ),
    (
        "chamber 2 as chamber 1",
        &[(27, "ray 0 1 1 0\n")],
        "invalid 24 order\n",
    ),
    (
        "a ray of another cone",
        &[(45, "ray 0 0 1 2\n")],
        "invalid 44 rays\n",
    ),
    (
        "another weight",
        &[(49, "weight 3 1 3 4\n")],
        "invalid 49 weight\n",
    ),
    (
        "a mark",
        &[(49, "weight 3 1 3 3\ncrossed 1\n")],
        "invalid 44 mark\n",
    ),
    (
        "a normal that isn't primitive",
        &[(51, "facet 0 2 0 0 boundary\n")],
        "invalid 44 facetset\n",
    ),
    (
        "a boundary as inner",
        &[(51, "facet 0 1 0 0 inner 1 matched\n")],
        "invalid 51 facetkind\n",
    ),
    (
        "an inner facet as boundary",
        &[(52, "facet 1 -1 -1 1 boundary\n")],
        "invalid 52 facetkind\n",
    ),
    (
        "another neighbour",
        &[(50, "facet -1 -1 1 1 inner 7 matched\n")],
        "invalid 50 neighbour\n",
    ),
    (
        "a neighbour that isn't listed",
        &[(53, "facet 1 -1 1 -1 inner 9 matched\n")],
        "invalid 53 neighbour\n",
    ),
    (
        "chamber 8 left out",
        &[
            (13, "chambers 7\n"),
            (84, ""),
            (85, ""),
            (86, ""),
            (87, ""),
            (88, ""),
            (89, ""),
            (90, ""),
            (91, ""),
            (92, ""),
            (93, ""),
        ],
        "invalid 50 neighbour\n",
    ),
    (
        "a shared wall as none",
        &[(52, "facet 1 -1 -1 1 inner 3 unmatched\n")],
        "invalid 52 matchkind\n",
    ),
    (
        "the last facet",
        &[(93, "facet 1 1 -1 -1 inner 3 matched\n")],
        "invalid 93 neighbour\n",
    ),
    (
        "two reasons, the later one at the earlier line",
        &[
            (50, "facet -1 -1 1 1 inner 7 matched\n"),
            (79, "weight 3 3 3 2\n"),
        ],
        "invalid 79 weight\n",
    ),
    (
        "one reason at two lines",
        &[
            (50, "facet -1 -1 1 1 inner 7 matched\n"),
            (93, "facet 1 1 -1 -1 inner 3 matched\n"),
        ],
        "invalid 50 neighbour\n",
    ),
];

/// What stands in the place of the line with a number, where it is changed.
fn replacement(changes: &[Change], number: usize) -> Option<&'static str> {
    for change in changes {
        if change.0 == number {
            return Some(change.1);
        }
    }
    None
}

/// The text with some lines changed.
fn changed(alloc: Global, text: &str, changes: &[Change]) -> Result<Vec<u8>, Fail> {
    let mut out = Vec::new(alloc);
    let mut number: usize = 1;
    for &byte in text.as_bytes() {
        let new = replacement(changes, number);
        if new.is_none() {
            out.push(byte)?;
        }
        if byte == b'\n' {
            out.extend_from_slice(new.unwrap_or("").as_bytes())?;
            number = number.wrapping_add(1);
        }
    }
    Ok(out)
}

/// Whether the answer to the text, so changed, is that of the row.
fn is_answered(alloc: Global, text: &str, row: &Row) -> Result<bool, Fail> {
    let bytes = changed(alloc, text, row.1)?;
    let reply = check_answer(alloc, &bytes)?;
    Ok(reply.text.as_slice() == row.2.as_bytes())
}

#[test]
fn each_reason_is_given_at_its_first_line(rt: HostRuntime) -> Result<(), Fail> {
    let tables = [
        (TWO, TWO_ROWS),
        (OLD, OLD_ROWS),
        (CROSSED, CROSSED_ROWS),
        (TURNED, TURNED_ROWS),
        (OVERLAP, OVERLAP_ROWS),
        (UNREACHED, UNREACHED_ROWS),
        (MONOMIAL, MONOMIAL_ROWS),
        (WIDE_CONE, WIDE_CONE_ROWS),
        (WIDE_CHAMBER, WIDE_CHAMBER_ROWS),
        (PLANES, PLANES_ROWS),
    ];
    for (text, rows) in tables {
        for row in rows {
            assert!(rt; is_answered(rt.alloc(), text, row)?, "{}", row.0);
        }
    }
    Ok(())
}

/// Whether the first bytes of the text, cut off before its end, are answered as no check text.
fn is_refused(alloc: Global, text: &str, length: usize) -> Result<bool, Fail> {
    let bytes = text.as_bytes();
    if length >= bytes.len() {
        return Ok(false);
    }
    let reply = check_answer(alloc, &bytes[..length])?;
    Ok(reply.status == Status::BadInput)
}

#[test]
fn texts_that_are_cut_off_are_refused(rt: HostRuntime) -> Result<(), Fail> {
    for text in [OLD, CROSSED] {
        for length in 0..text.len() {
            assert!(rt; is_refused(rt.alloc(), text, length)?, "{length}");
        }
    }
    Ok(())
}
