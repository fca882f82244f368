//! The first faults of weights after an input of six lines.
use git_base::{MemSource, Status};
use git_weighted::{WeightedReading, read, read_weighted};
use std::alloc::Global;
use std::test::Fail;

/// Three columns in the quadrant and the ideal 0.
const PLANE: &[u8] = b"gitfan 1\ngrading 2 3\n1 1 0\n0 1 1\nideal 0\nend\n";

/// A name, what follows the input, and the line of the refusal, which is empty where the weights are read.
type Row = (&'static str, &'static [u8], &'static [u8]);

const ROWS: &[Row] = &[
    (
        "nothing after the input",
        b"",
        b"refused weights 7 1 truncated\n",
    ),
    (
        "no number of weights",
        b"weights\n",
        b"refused weights 7 8 count\n",
    ),
    (
        "another word",
        b"weight 1\n1 1\nend\n",
        b"refused weights 7 1 syntax\n",
    ),
    (
        "a number of letters",
        b"weights x\n1 1\nend\n",
        b"refused weights 7 9 number\n",
    ),
    (
        "no weight",
        b"weights 0\nend\n",
        b"refused weights 7 9 range\n",
    ),
    (
        "1000 weights that are missing",
        b"weights 1000\n",
        b"refused weights 8 1 truncated\n",
    ),
    (
        "1001 weights",
        b"weights 1001\n1 1\nend\n",
        b"refused weights 7 9 range\n",
    ),
    (
        "a token after the number",
        b"weights 1 2\n1 1\nend\n",
        b"refused weights 7 11 count\n",
    ),
    ("an empty line", b"\n", b"refused weights 7 1 syntax\n"),
    (
        "a word as an entry",
        b"weights 1\n1 y\nend\n",
        b"refused weights 8 3 number\n",
    ),
    (
        "an entry above 2^40",
        b"weights 1\n1 1099511627777\nend\n",
        b"refused weights 8 3 range\n",
    ),
    (
        "an entry below -2^40",
        b"weights 1\n-1099511627777 0\nend\n",
        b"refused weights 8 1 range\n",
    ),
    (
        "an entry of 19 digits",
        b"weights 1\n1000000000000000000 0\nend\n",
        b"refused weights 8 1 number\n",
    ),
    (
        "too few entries",
        b"weights 1\n1 \nend\n",
        b"refused weights 8 3 count\n",
    ),
    (
        "too many entries",
        b"weights 1\n1 1 1\nend\n",
        b"refused weights 8 5 count\n",
    ),
    (
        "a weight that is missing",
        b"weights 2\n1 1\nend\n",
        b"refused weights 9 1 number\n",
    ),
    (
        "a weight too many",
        b"weights 1\n1 1\n1 2\nend\n",
        b"refused weights 9 1 syntax\n",
    ),
    (
        "no end",
        b"weights 1\n1 1\n",
        b"refused weights 9 1 truncated\n",
    ),
    (
        "a token after the end",
        b"weights 1\n1 1\nend x\n",
        b"refused weights 9 5 count\n",
    ),
    (
        "a line after the end",
        b"weights 1\n1 1\nend\n\n",
        b"refused weights 10 1 trailing\n",
    ),
    (
        "an entry at both limits",
        b"weights 1\n1099511627776 -1099511627776\nend\n",
        b"",
    ),
    (
        "spaces and carriage returns",
        b" weights  2 \r\n1   1\r\n 01 +2\r\nend\r\n",
        b"refused weights 9 5 number\n",
    ),
    (
        "no line feed at the end",
        b"weights 2\r\n 1   1\r\n01 -0 \r\n end",
        b"",
    ),
];

/// Whether what is read is refused with this line, or read where the line is empty.
fn is_as_needed(reading: &WeightedReading, line: &[u8]) -> bool {
    match reading {
        WeightedReading::Text(_) => line.is_empty(),
        WeightedReading::Refused(reply) => {
            reply.status == Status::BadInput && reply.text.as_slice() == line
        }
    }
}

/// Whether a row's bytes after the input are read as it says, from memory and from a source.
fn is_read(alloc: Global, row: &Row) -> Result<bool, Fail> {
    let (_name, rest, line) = row;
    let mut bytes = PLANE.to_vec(alloc)?;
    bytes.extend_from_slice(rest)?;
    let mut source = MemSource::new(bytes.to_vec(alloc)?, 7, Vec::new(alloc));
    let Ok(first) = read_weighted(alloc, &bytes) else {
        return Err("memory".into());
    };
    let Ok(second) = read(alloc, &mut source) else {
        return Err("memory".into());
    };
    Ok(is_as_needed(&first, line) && is_as_needed(&second, line))
}

#[test]
fn the_first_fault_of_weights_is_named(rt: HostRuntime) -> Result<(), Fail> {
    for row in ROWS {
        assert!(rt; is_read(rt.alloc(), row)?, "{}", row.0);
    }
    Ok(())
}
