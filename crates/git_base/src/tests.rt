use super::*;
use std::alloc::Global;
use std::test::Fail;

#[test]
fn pieces_of_any_size_give_the_same_bytes(rt: HostRuntime) -> Result<(), Fail> {
    let alloc = rt.alloc();
    let mut bytes = vec![in alloc; b'x'; 5000]?;
    bytes.extend_from_slice(b"the end")?;
    for piece in [1, 5, 4096] {
        assert!(rt; 0 < piece);
        let mut source = MemSource::new(bytes.clone()?, piece, Vec::new(alloc));
        let read = read_all(alloc, &mut source, 1 << 20)?;
        assert_eq!(rt; read.as_slice(), bytes.as_slice(), "in pieces of {piece}");
        assert!(rt; source.left().is_empty());
    }
    Ok(())
}

#[test]
fn the_limit_is_the_last_length_that_is_read(rt: HostRuntime) -> Result<(), Fail> {
    let alloc = rt.alloc();
    let table = [
        (0, Some(ReadError::TooLong)),
        (4, Some(ReadError::TooLong)),
        (5, None),
        (6, None),
        (usize::MAX, None),
    ];
    for (limit, refusal) in table {
        let mut source = CleanSource::new(b"abcde".to_vec(alloc)?);
        let read = read_all(alloc, &mut source, limit);
        assert_eq!(rt; read.err(), refusal, "at limit {limit}");
    }
    Ok(())
}

#[test]
fn a_failed_read_takes_no_byte(rt: HostRuntime) -> Result<(), Fail> {
    let alloc = rt.alloc();
    let fails = [2].to_vec(alloc)?;
    let mut source = MemSource::new(b"abcdef".to_vec(alloc)?, 2, fails);
    let read = read_all(alloc, &mut source, 9);
    assert_eq!(rt; read.err(), Some(ReadError::ReadFault));
    assert_eq!(rt; source.left(), b"cdef".as_slice());
    let rest = read_all(alloc, &mut source, 9)?;
    assert_eq!(rt; rest.as_slice(), b"cdef".as_slice());
    Ok(())
}

#[test]
fn a_sink_keeps_what_came_before_its_fault(rt: HostRuntime) -> Result<(), Fail> {
    let alloc = rt.alloc();
    let table = [
        (9, 4, None, b"abcdef".as_slice()),
        (9, 2, Some(3), b"abcd".as_slice()),
        (3, 2, None, b"abc".as_slice()),
    ];
    for (room, piece, failing, kept) in table {
        assert!(rt; 0 < room && 0 < piece);
        let mut fails = Vec::new(alloc);
        fails.extend(failing)?;
        let mut sink = MemSink::new(alloc, room, piece, fails)?;
        let wrote = write_all_of(&mut sink, b"abcdef");
        assert_eq!(rt; wrote.is_ok(), kept.len() == 6, "in room {room}");
        assert_eq!(rt; sink.written(), kept, "in room {room}");
    }
    Ok(())
}

#[test]
fn readers_and_writers_of_std_are_ends(rt: HostRuntime) -> Result<(), Fail> {
    let alloc = rt.alloc();
    let mut source = StdSource::new(b"abc".as_slice());
    let bytes = read_all(alloc, &mut source, 5)?;
    assert_eq!(rt; bytes.as_slice(), b"abc".as_slice());

    let mut page = [0u8; 4];
    let mut sink = StdSink::new(page.as_mut_slice());
    write_all_of(&mut sink, b"wx")?;
    assert_eq!(rt; write_all_of(&mut sink, b"yz!").err(), Some(WriteFault));
    assert_eq!(rt; page.as_slice(), b"wxyz".as_slice());
    Ok(())
}

fn push_twice(alloc: Global, byte: u8) -> Result<Vec<u8>, NoMemory> {
    let mut bytes = Vec::new(alloc);
    bytes.push(byte)?;
    bytes.push(byte)?;
    Ok(bytes)
}

#[test]
fn want_of_memory_alone_becomes_no_memory(rt: HostRuntime) -> Result<(), Fail> {
    let pair = push_twice(rt.alloc(), b'a')?;
    assert_eq!(rt; pair.as_slice(), b"aa".as_slice());
    Ok(())
}

#[test]
fn codes_stand_in_the_order_of_the_statuses(rt: HostRuntime) {
    let table = [
        (Status::Done, 0),
        (Status::Invalid, 1),
        (Status::Usage, 2),
        (Status::BadInput, 3),
        (Status::Monomial, 4),
        (Status::Wide, 5),
        (Status::Crossed, 6),
        (Status::Full, 7),
        (Status::Steps, 8),
        (Status::Degree, 9),
        (Status::TableWide, 10),
        (Status::ReadFault, 11),
        (Status::WriteFault, 12),
        (Status::NoMemory, 13),
    ];
    for (status, code) in table {
        assert_eq!(rt; status.code(), code, "at {status:?}");
    }
}
