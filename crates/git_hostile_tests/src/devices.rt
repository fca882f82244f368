//! Reads and writes that fail, one after the other, and inputs that are cut off.
use git_base::{MemSink, MemSource, Status};
use git_crew::OpenGate;
use git_top::gitfan;
use std::alloc::Global;
use std::marker::Sync;
use std::sync::Wait;
use std::test::Fail;
use std::thread::Threads;

/// Three columns in the quadrant and the ideal 0, and its listing.
const PLANE: &[u8] = b"gitfan 1\ngrading 2 3\n1 1 0\n0 1 1\nideal 0\nend\n";

const LISTING: &[u8] = b"gitfan-listing 2\n\
grading 2 3\n\
cones 3\n\
chambers 2\n\
chamber 1\n\
ray 0 1\n\
ray 1 1\n\
weight 1 2\n\
facet -1 1 inner 2 matched\n\
facet 1 0 boundary\n\
chamber 2\n\
ray 1 0\n\
ray 1 1\n\
weight 2 1\n\
facet 0 1 boundary\n\
facet 1 -1 inner 1 matched\n\
end\n";

/// The words of `fan`, on one thread and by a crew.
const WORDS: &[&[&str]] = &[&["fan", "--workers", "1"], &["fan", "--workers", "4"]];

/// The size of a device's pieces, and the number of the call that fails, counted from 1. No call has the number 0.
type Device = (usize, u64);

/// How a run over these bytes ends, and what it wrote.
fn ran<R: Threads + Wait + Sync>(
    rt: &R,
    alloc: Global,
    words: &[&str],
    bytes: &[u8],
    source: Device,
    sink: Device,
) -> Result<(Status, Vec<u8>), Fail> {
    let (piece, read) = source;
    let (most, write) = sink;
    if piece == 0 || most == 0 {
        return Err("pieces".into());
    }
    let reads = [read].to_vec(alloc)?;
    let writes = [write].to_vec(alloc)?;
    let mut source = MemSource::new(bytes.to_vec(alloc)?, piece, reads);
    let mut sink = MemSink::new(alloc, 8192, most, writes)?;
    let status = gitfan(rt, alloc, words, &OpenGate, &mut source, &mut sink);
    Ok((status, sink.written().to_vec(alloc)?))
}

/// Forty-five bytes take ten reads of at most five bytes, of which the last gives none.
#[test]
fn each_failing_read_is_named_and_nothing_is_written(rt: HostRuntime) -> Result<(), Fail> {
    for words in WORDS {
        for failing in 1..12 {
            let (status, written) = ran(&rt, rt.alloc(), words, PLANE, (5, failing), (8192, 0))?;
            if failing <= 10 {
                assert_eq!(rt; status, Status::ReadFault, "at read {failing}");
                assert!(rt; written.is_empty(), "at read {failing}");
            } else {
                assert_eq!(rt; status, Status::Done, "at read {failing}");
                assert_eq!(rt; written.as_slice(), LISTING, "at read {failing}");
            }
        }
    }
    Ok(())
}

/// The listing's 218 bytes take fourteen writes of at most sixteen bytes.
#[test]
fn each_failing_write_is_named_and_what_came_before_stands(rt: HostRuntime) -> Result<(), Fail> {
    for words in WORDS {
        for failing in 1..16 {
            let (status, written) = ran(&rt, rt.alloc(), words, PLANE, (4096, 0), (16, failing))?;
            let whole = failing == 15;
            let wanted = if whole {
                Status::Done
            } else {
                Status::WriteFault
            };
            assert_eq!(rt; status, wanted, "at write {failing}");
            let before = if whole {
                218
            } else {
                16 * (failing as usize - 1)
            };
            assert_eq!(rt;
                written.as_slice(),
                &LISTING[..before],
                "at write {failing}"
            );
        }
    }
    Ok(())
}

/// The last of the input's 45 bytes, a line feed, may be left out.
#[test]
fn an_input_that_is_cut_off_is_none(rt: HostRuntime) -> Result<(), Fail> {
    for words in WORDS {
        for bytes in 0..46 {
            let (status, written) = ran(&rt, rt.alloc(), words, &PLANE[..bytes], (1, 0), (1, 0))?;
            if bytes < 44 {
                assert_eq!(rt; status, Status::BadInput, "of {bytes} bytes");
                assert!(rt; written.starts_with(b"refused input "), "of {bytes} bytes");
            } else {
                assert_eq!(rt; status, Status::Done, "of {bytes} bytes");
                assert_eq!(rt; written.as_slice(), LISTING, "of {bytes} bytes");
            }
        }
    }
    Ok(())
}
