//! Lines worked by hand.
use super::*;
use git_lines::{FormKind, Lines};

/// 0 for what is read, else the number of the kind.
fn kind(read: Result<u32, git_lines::FormFault>) -> u8 {
    match read {
        Ok(_) => 0,
        Err(fault) => match fault.kind {
            FormKind::Header => 1,
            FormKind::Number => 2,
            FormKind::Count => 3,
            FormKind::Range => 4,
            FormKind::Syntax => 5,
            FormKind::Truncated => 6,
            FormKind::Trailing => 7,
        },
    }
}

/// A text, and the kind of its first fault as a line `faces` with a number from 1 to 30.
const NUMBERS: [(&str, u8); 13] = [
    ("faces 1\n", 0),
    ("faces 30\nmore", 0),
    ("faces 31\n", 4),
    ("faces 0\n", 4),
    ("faces 01\n", 2),
    ("faces -1\n", 4),
    ("faces -0\n", 2),
    ("faces  1\n", 5),
    ("faces 1 \n", 5),
    ("faces\n", 3),
    ("face 1\n", 5),
    ("faces 1 2\n", 3),
    ("faces 1", 6),
];

#[test]
fn lines_of_numbers(rt: HostRuntime) {
    for (text, wanted) in NUMBERS {
        let mut lines = Lines::new(text.as_bytes());
        assert!(rt;
            kind(number(&mut lines, b"faces", 1, 30)) == wanted,
            "at {text}"
        );
    }
}

/// A text, and whether its first line is that of the format in version 1 or 2.
const HEADERS: [(&str, u8); 6] = [
    ("format 1\n", 0),
    ("format 2\n", 0),
    ("format 3\n", 1),
    ("format 02\n", 1),
    ("\n", 1),
    ("format 1", 6),
];

#[test]
fn headers_and_heads(rt: HostRuntime) {
    for (text, wanted) in HEADERS {
        let mut lines = Lines::new(text.as_bytes());
        assert!(rt;
            kind(header(&mut lines, b"format", 2)) == wanted,
            "at {text}"
        );
    }
    let mut lines = Lines::new(b"end\nray 1\nray");
    assert!(rt; begins_with(&lines, b"end") && !begins_with(&lines, b"en"));
    assert!(rt; end(&mut lines).is_ok() && end(&mut lines).is_err());
    let last = Lines::new(b"ray 1");
    assert!(rt; !begins_with(&last, b"ray"));
}
