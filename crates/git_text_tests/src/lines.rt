//! Tests of what the definitions mean, by values from outside.
ghost use Rattle.std.specs.Prelude.{◌<◌, ◌^◌, length};

use git_lines::{
    Cursor, Fields, FormFault, FormKind, Joining, Line, Lines, Parts, Separator, integer_of,
    integer_once_of, natural_of, natural_once_of,
};
use std::test::*;

fn fault(line: u32, column: u32, kind: FormKind) -> FormFault {
    FormFault { line, column, kind }
}

/// Whether the text has these lines and no other.
fn has_lines(text: &[u8], lines: &[&[u8]]) -> bool
    requires { length text.now < 2 ^ 16 }
{
    let mut rest = Lines::new(text);
    for line in lines {
        match rest.next_line() {
            Ok(found) => {
                if found.text != *line {
                    return false;
                }
            }
            Err(_) => return false,
        }
    }
    rest.no_line().is_ok() && rest.next_line() == Err(fault(rest.line, 1, FormKind::Truncated))
}

#[test]
fn lines_end_at_line_feeds(rt: HostRuntime) {
    assert!(rt; has_lines(b"", &[]));
    assert!(rt; has_lines(b"a", &[b"a"]));
    assert!(rt; has_lines(b"a\n", &[b"a"]));
    assert!(rt; has_lines(b"a\r\n", &[b"a"]));
    assert!(rt; has_lines(b"a\r", &[b"a"]));
    assert!(rt; has_lines(b"a\r\r\n", &[b"a\r"]));
    assert!(rt; has_lines(b"a\rb\n", &[b"a\rb"]));
    assert!(rt; has_lines(b"\n\r\na", &[b"", b"", b"a"]));
    assert!(rt; has_lines(b" a \n\n", &[b" a ", b""]));
}

#[test]
fn lines_are_numbered(rt: HostRuntime) {
    let mut rest = Lines::new(b"a\n\nb");
    assert_eq!(rt;
        rest.next_line(),
        Ok(Line {
            number: 1,
            text: b"a"
        })
    );
    assert_eq!(rt; rest.at, 2);
    assert_eq!(rt; rest.no_line(), Err(fault(2, 1, FormKind::Trailing)));
    assert_eq!(rt;
        rest.next_line(),
        Ok(Line {
            number: 2,
            text: b""
        })
    );
    assert_eq!(rt;
        rest.next_line(),
        Ok(Line {
            number: 3,
            text: b"b"
        })
    );
    assert_eq!(rt; rest.next_line(), Err(fault(4, 1, FormKind::Truncated)));
}

#[test]
fn ended_lines_want_their_line_feed(rt: HostRuntime) {
    let mut rest = Lines::new(b"a\r\nb");
    assert_eq!(rt;
        rest.next_ended_line(),
        Ok(Line {
            number: 1,
            text: b"a\r"
        })
    );
    assert_eq!(rt;
        rest.next_ended_line(),
        Err(fault(2, 1, FormKind::Truncated))
    );
    assert_eq!(rt;
        rest.next_line(),
        Ok(Line {
            number: 2,
            text: b"b"
        })
    );
    assert_eq!(rt;
        rest.next_ended_line(),
        Err(fault(3, 1, FormKind::Truncated))
    );
}

/// Whether the text has these tokens and no other.
fn has_tokens(joining: Joining, text: &[u8], tokens: &[(u32, &[u8])]) -> bool
    requires { length text.now < 2 ^ 16 }
{
    let mut rest = Cursor::new(joining, 1, 1, text);
    for (column, token) in tokens {
        match rest.next_token() {
            Some(found) => {
                if found.column != *column || found.text != *token {
                    return false;
                }
            }
            None => return false,
        }
    }
    rest.next_token().is_none()
}

#[test]
fn words_stand_between_spaces(rt: HostRuntime) {
    assert!(rt; has_tokens(Joining::Words, b"", &[]));
    assert!(rt; has_tokens(Joining::Words, b"  ", &[]));
    assert!(rt; has_tokens(Joining::Words, b"a", &[(1, b"a")]));
    assert!(rt; has_tokens(Joining::Words, b" a  bc ", &[(2, b"a"), (5, b"bc")]));
    assert!(rt; has_tokens(Joining::Words, b"a\tb", &[(1, b"a\tb")]));
    assert!(rt;
        has_tokens(
            Joining::Words,
            b"\xff\x80 x",
            &[(1, b"\xff\x80"), (4, b"x")]
        )
    );
}

#[test]
fn signs_and_numbers_stand_alone(rt: HostRuntime) {
    assert!(rt;
        has_tokens(
            Joining::Signs,
            b"T(12)^3",
            &[(1, b"T("), (3, b"12"), (5, b")"), (6, b"^"), (7, b"3")]
        )
    );
    assert!(rt;
        has_tokens(
            Joining::Signs,
            b"1 2T (",
            &[(1, b"1"), (3, b"2"), (4, b"T"), (6, b"(")]
        )
    );
}

/// Whether the text has these parts and no other, from column 1.
fn has_parts(by: Separator, text: &[u8], parts: &[(Option<u8>, u32, &[u8])]) -> bool
    requires { length text.now < 2 ^ 16 }
{
    let mut rest = Parts::new(by, 1, text);
    for (separator, column, part) in parts {
        match rest.next_part() {
            Some(found) => {
                if found.separator != *separator || found.column != *column || found.text != *part {
                    return false;
                }
            }
            None => return false,
        }
    }
    rest.next_part().is_none()
}

#[test]
fn parts_stand_between_separators(rt: HostRuntime) {
    assert!(rt; has_parts(Separator::Star, b"", &[(None, 1, b"")]));
    assert!(rt;
        has_parts(
            Separator::Star,
            b"2*x",
            &[(None, 1, b"2"), (Some(b'*'), 3, b"x")]
        )
    );
    assert!(rt;
        has_parts(
            Separator::PlusOrMinus,
            b"-a+ b",
            &[
                (None, 1, b""),
                (Some(b'-'), 2, b"a"),
                (Some(b'+'), 4, b" b")
            ]
        )
    );
    assert!(rt;
        has_parts(
            Separator::Space,
            b"a  b",
            &[(None, 1, b"a"), (Some(b' '), 3, b""), (Some(b' '), 4, b"b")]
        )
    );
}

#[test]
fn integers_have_up_to_eighteen_digits(rt: HostRuntime) {
    let table: [(&[u8], Option<i64>, Option<i64>); 13] = [
        (b"0", Some(0), Some(0)),
        (b"-12", Some(-12), Some(-12)),
        (
            b"999999999999999999",
            Some(999_999_999_999_999_999),
            Some(999_999_999_999_999_999),
        ),
        (
            b"-999999999999999999",
            Some(-999_999_999_999_999_999),
            Some(-999_999_999_999_999_999),
        ),
        (b"007", Some(7), None),
        (b"-0", Some(0), None),
        (b"1000000000000000000", None, None),
        (b"0000000000000000001", None, None),
        (b"", None, None),
        (b"-", None, None),
        (b"--1", None, None),
        (b"+1", None, None),
        (b"1x", None, None),
    ];
    for (text, plain, once) in table {
        assert_eq!(rt; integer_of(text), plain);
        assert_eq!(rt; integer_once_of(text), once);
    }
    assert_eq!(rt; natural_of(b"010"), Some(10));
    assert_eq!(rt; natural_of(b"-1"), None);
    assert_eq!(rt; natural_once_of(b"10"), Some(10));
    assert_eq!(rt; natural_once_of(b"010"), None);
}

#[test]
fn steps_report_the_place(rt: HostRuntime) -> Result<(), Fail> {
    let line = Lines::new(b" at  12 x \r\n")
        .next_line()
        .ok()
        .ok_or("a line")?;
    let mut rest = Cursor::words(&line);
    assert_eq!(rt; rest.no_token(), Err(fault(1, 2, FormKind::Count)));
    assert_eq!(rt; rest.word_token(b"a"), Err(fault(1, 2, FormKind::Syntax)));
    assert_eq!(rt; rest.word_token(b"at"), Ok(()));
    assert_eq!(rt;
        rest.integer_token(0, 11),
        Err(fault(1, 6, FormKind::Range))
    );
    assert_eq!(rt;
        rest.integer_token(13, 99),
        Err(fault(1, 6, FormKind::Range))
    );
    assert_eq!(rt; rest.integer_token(12, 12), Ok(12));
    assert_eq!(rt;
        rest.integer_token(0, 1),
        Err(fault(1, 9, FormKind::Number))
    );
    assert!(rt; rest.peek_token().is_some());
    assert_eq!(rt; rest.word_token(b"x"), Ok(()));
    assert_eq!(rt;
        rest.integer_token(0, 1),
        Err(fault(1, 11, FormKind::Count))
    );
    assert_eq!(rt; rest.word_token(b"x"), Err(fault(1, 11, FormKind::Syntax)));
    assert_eq!(rt; rest.no_token(), Ok(()));
    assert_eq!(rt; rest.line(), 1);
    assert_eq!(rt; rest.past(), 11);
    Ok(())
}

/// What is read of a line by the word `ray` and two integers from -9 to 9.
fn two_integers(text: &[u8]) -> Result<(i64, i64), FormFault>
    requires { length text.now < 2 ^ 16 }
{
    let mut fields = Fields::new(&Line { number: 7, text });
    fields.word_field(b"ray")?;
    let first = fields.integer_field(-9, 9)?;
    let second = fields.integer_field(-9, 9)?;
    fields.no_field()?;
    Ok((first, second))
}

/// The kind of the first fault of such a line.
fn kind_of(text: &[u8]) -> Option<FormKind>
    requires { length text.now < 2 ^ 16 }
{
    match two_integers(text) {
        Ok(_) => None,
        Err(fault) => Some(fault.kind),
    }
}

#[test]
fn single_spaced_lines_have_one_spelling(rt: HostRuntime) {
    assert_eq!(rt; two_integers(b"ray -9 0"), Ok((-9, 0)));
    assert_eq!(rt; two_integers(b"ray 1"), Err(fault(7, 1, FormKind::Count)));
    assert_eq!(rt; kind_of(b""), Some(FormKind::Count));
    assert_eq!(rt; kind_of(b"ray"), Some(FormKind::Count));
    assert_eq!(rt; kind_of(b"ray 1 2 3"), Some(FormKind::Count));
    assert_eq!(rt; kind_of(b"way 1 2"), Some(FormKind::Syntax));
    assert_eq!(rt; kind_of(b" ray 1 2"), Some(FormKind::Syntax));
    assert_eq!(rt; kind_of(b"ray  1 2"), Some(FormKind::Syntax));
    assert_eq!(rt; kind_of(b"ray 1 2 "), Some(FormKind::Syntax));
    assert_eq!(rt; kind_of(b"ray 01 2"), Some(FormKind::Number));
    assert_eq!(rt; kind_of(b"ray 1 -0"), Some(FormKind::Number));
    assert_eq!(rt;
        kind_of(b"ray 1 1234567890123456789"),
        Some(FormKind::Number)
    );
    assert_eq!(rt; kind_of(b"ray 1 10"), Some(FormKind::Range));
}
