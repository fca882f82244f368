//! Inputs with weights: where the weights lie, and what is answered of others. The places were worked out apart, by the
//! planes through columns and rays.
use git_base::{MemSource, Status};
use git_limits::STEPS;
use git_replies::Reply;
use git_stages::{WideAt, WideWhat};
use git_weight_replies::{locate_answer, wide_weight_line};
use git_weighted::{WeightedReading, read};
use std::alloc::Global;
use std::marker::Sync;
use std::test::Fail;
use std::thread::Threads;

/// A name, an input with weights, the most signatures, the status and the text.
type Row = (&'static str, &'static [u8], u32, Status, &'static [u8]);

const ROWS: &[Row] = &[
    (
        "three-weights",
        b"gitfan 1\n\
grading 2 3\n\
1 1 0\n\
0 1 1\n\
ideal 0\n\
end\n\
weights 3\n\
1 1\n\
1 2\n\
-1 0\n\
end\n",
        64,
        Status::Done,
        b"gitfan-locate 1\n\
weights 3\n\
weight 1 1\n\
cones 0 1 2\n\
dimension 1\n\
ray 1 1\n\
in 1 2\n\
weight 1 2\n\
cones 0 1\n\
dimension 2\n\
ray 0 1\n\
ray 1 1\n\
in 1\n\
weight -1 0\n\
outside 1 0\n\
end\n",
    ),
    (
        "the sum of the columns of a toric surface",
        b"gitfan 1\n\
grading 2 9\n\
1 1 2 1 2 0 -1 -2 -1\n\
0 0 1 1 2 1 2 4 1\n\
ideal 0\n\
end\n\
weights 5\n\
3 12\n\
0 1\n\
1 1\n\
-1 3\n\
5 -1\n\
end\n",
        64,
        Status::Done,
        b"gitfan-locate 1\n\
weights 5\n\
weight 3 12\n\
cones 0 1 2 5 6 7 9 10 11\n\
dimension 2\n\
ray 0 1\n\
ray 1 1\n\
in 3\n\
weight 0 1\n\
cones 0 1 2 3 5 6 7 8 9 10 11\n\
dimension 1\n\
ray 0 1\n\
in 2 3\n\
weight 1 1\n\
cones 0 1 2 5 6 7 9 10 11 12 13\n\
dimension 1\n\
ray 1 1\n\
in 3 5\n\
weight -1 3\n\
cones 0 1 2 3 5 6 7 8\n\
dimension 2\n\
ray -1 2\n\
ray 0 1\n\
in 2\n\
weight 5 -1\n\
outside 0 1\n\
end\n",
    ),
    (
        "chambers that overlap",
        b"gitfan 1\n\
grading 2 4\n\
9 1 0 -2\n\
-6 0 1 3\n\
ideal 8\n\
T(1)*T(2)^10-T(1)^2*T(2)*T(3)^6\n\
T(2)^10*T(3)-T(1)*T(2)*T(3)^7\n\
T(1)*T(2)^9*T(4)-T(1)^2*T(3)^6*T(4)\n\
T(2)^9*T(3)*T(4)-T(1)*T(3)^7*T(4)\n\
T(1)*T(2)*T(3)^3-T(1)*T(2)^3*T(4)\n\
T(2)*T(3)^4-T(2)^3*T(3)*T(4)\n\
T(1)*T(3)^3*T(4)-T(1)*T(2)^2*T(4)^2\n\
T(3)^4*T(4)-T(2)^2*T(3)*T(4)^2\n\
end\n\
weights 4\n\
8 -2\n\
1 1\n\
-1 3\n\
0 -1\n\
end\n",
        64,
        Status::Done,
        b"gitfan-locate 1\n\
weights 4\n\
weight 8 -2\n\
cones 0 2\n\
dimension 2\n\
ray 0 1\n\
ray 3 -2\n\
in 2\n\
weight 1 1\n\
cones 0 1 2\n\
dimension 2\n\
ray 0 1\n\
ray 1 0\n\
in 1 2\n\
weight -1 3\n\
cones 0 1\n\
dimension 2\n\
ray -2 3\n\
ray 1 0\n\
in 1\n\
weight 0 -1\n\
outside 2 3\n\
end\n",
    ),
    (
        "a chamber that another cone crosses",
        b"gitfan 1\n\
grading 2 3\n\
2 0 1\n\
0 2 1\n\
ideal 1\n\
T(1)^2*T(2)-T(1)*T(3)^2\n\
end\n\
weights 3\n\
3 3\n\
2 1\n\
1 2\n\
end\n",
        64,
        Status::Done,
        b"gitfan-locate 1\n\
weights 3\n\
weight 3 3\n\
cones 0 1\n\
dimension 2\n\
ray 0 1\n\
ray 1 1\n\
in 1\n\
weight 2 1\n\
cones 0\n\
dimension 2\n\
ray 0 1\n\
ray 1 0\n\
in 1\n\
weight 1 2\n\
cones 0 1\n\
dimension 2\n\
ray 0 1\n\
ray 1 1\n\
in 1\n\
end\n",
    ),
    (
        "the second weight is wide",
        b"gitfan 1\n\
grading 3 5\n\
794 843 636 927 707\n\
-837 -973 642 766 941\n\
622 653 637 -743 -939\n\
ideal 0\n\
end\n\
weights 3\n\
-1 0 0\n\
707 941 -939\n\
794 -837 622\n\
end\n",
        64,
        Status::Wide,
        b"refused wide weight 2 stage 2 vector -1551292224471 -1270320620446 1357062976487\n",
    ),
    (
        "a table that is full",
        b"gitfan 1\n\
grading 2 3\n\
1 1 0\n\
0 1 1\n\
ideal 0\n\
end\n\
weights 1\n\
1 1\n\
end\n",
        1,
        Status::Full,
        b"refused full 1\n",
    ),
    (
        "an ideal with a monomial",
        b"gitfan 1\n\
grading 2 3\n\
1 1 0\n\
0 1 1\n\
ideal 1\n\
T(1)*T(2)\n\
end\n\
weights 1\n\
1 1\n\
end\n",
        64,
        Status::Monomial,
        b"refused monomial\n\
face 7 monomial 1 1\n\
h T(3)\n",
    ),
    (
        "weights-truncated",
        b"gitfan 1\n\
grading 2 3\n\
1 1 0\n\
0 1 1\n\
ideal 0\n\
end\n\
weights 3\n\
1 1\n\
1 2\n\
-1 0\n",
        64,
        Status::BadInput,
        b"refused weights 11 1 truncated\n",
    ),
    (
        "the first fault is that of the input",
        b"gitfan 1\n\
grading 2 3\n\
1 1 0\n\
0 1\n\
ideal 0\n\
end\n\
weights\n",
        64,
        Status::BadInput,
        b"refused input 4 4 count\n",
    ),
];

/// The answer to bytes, which come in pieces, unless memory ran out.
fn answered<R: Threads + Sync>(
    rt: &R,
    alloc: Global,
    bytes: &[u8],
    table: u32,
) -> Result<Reply, Fail> {
    if table == 0 || table > 65536 {
        return Err("limits".into());
    }
    let mut source = MemSource::new(bytes.to_vec(alloc)?, 7, Vec::new(alloc));
    let Ok(reading) = read(alloc, &mut source) else {
        return Err("memory".into());
    };
    let read = match reading {
        WeightedReading::Text(read) => read,
        WeightedReading::Refused(reply) => return Ok(reply),
    };
    Ok(locate_answer(rt, alloc, &read.input, &read.weights, table, STEPS)?)
}

/// Whether a row's bytes are answered as it says.
fn is_answered<R: Threads + Sync>(rt: &R, alloc: Global, row: &Row) -> Result<bool, Fail> {
    let (_name, bytes, table, status, text) = row;
    let reply = answered(rt, alloc, bytes, *table)?;
    Ok(reply.status == *status && reply.text.as_slice() == *text)
}

#[test]
fn weights_lie_where_they_were_found_apart(rt: HostRuntime) -> Result<(), Fail> {
    for row in ROWS {
        assert!(rt; is_answered(&rt, rt.alloc(), row)?, "{}", row.0);
    }
    Ok(())
}

#[test]
fn a_wide_weight_is_named(rt: HostRuntime) -> Result<(), Fail> {
    let at = WideAt {
        stage: 7,
        what: WideWhat::Many,
    };
    let reply = wide_weight_line(rt.alloc(), 3, &at)?;
    assert!(rt; reply.status == Status::Wide);
    assert!(rt; reply.text.as_slice() == b"refused wide weight 3 stage 7 many\n".as_slice());
    Ok(())
}
