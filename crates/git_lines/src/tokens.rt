//! A line, token by token.
ghost use Rattle.std.specs.Prelude.{◌≡◌, ◌≢◌, ◌+◌, ◌-◌, ◌<◌, ◌≤◌, ◌^◌, ℕ, true, false, Some, None, length, slice_index, IfSome, IfNone};
ghost use Rattle.git_lines.specs.Tokens.{RestOfLine, stays, joins_in, rest_from, rest_of_line, next_token};

use crate::lines::Line;
use std::marker::Model;

/// Which neighbours belong to one token. A space belongs to none.
#[derive(Clone, Copy, Debug, PartialEq, Eq)]
pub enum Joining {
    /// All: a token is a word.
    Words,
    /// Two digits, and `T` and the bracket after it: a token is a number or a sign of a polynomial.
    Signs,
}

/// A token, and the column of its first byte.
#[derive(Clone, Copy, Debug, PartialEq, Eq)]
pub struct Token<'a> {
    pub column: u32,
    pub text: &'a [u8],
    ghost fits: { column + length text.now < 2 ^ 32 },
}

/// What is left of a line, or of a part of one.
#[derive(Drop)]
pub struct Cursor<'a> {
    joining: Joining,
    line: u32,
    column: u32,
    rest: &'a [u8],
}

impl<'a> Model for Cursor<'a> {
    ghost use Rattle.std.specs.Prelude.{◌+◌, ◌<◌, ◌^◌, length};
    ghost use Rattle.git_lines.specs.Tokens.{RestOfLine, rest_from};

    ghost Value = { RestOfLine };

    ghost view = { λ c. rest_from c.joining c.line c.column c.rest.now };

    ghost invariant = { λ c. c.column + length c.rest.now < 2 ^ 32 };
}

/// Whether the second of two neighbours belongs to the token of the first.
fn stays_with(joining: Joining, first: u8, second: u8) -> bool
    ensures { result ≡ stays (joins_in joining) first second }
{
    second != b' '
        && match joining {
            Joining::Words => true,
            Joining::Signs => {
                (first.is_ascii_digit() && second.is_ascii_digit())
                    || (first == b'T' && second == b'(')
            }
        }
}

/// Where the first token begins and where it ends.
fn first_token(joining: Joining, bytes: &[u8]) -> Option<(usize, usize)>
    ensures none { IfNone result ((i : ℕ) → i < length bytes.now → slice_index bytes.now i ≡ 32) }
    ensures order { IfSome result (λ t. t.0 < t.1) }
    ensures within { IfSome result (λ t. t.1 ≤ length bytes.now) }
    ensures before { IfSome result (λ t. (i : ℕ) → i < t.0 → slice_index bytes.now i ≡ 32) }
    ensures first { IfSome result (λ t. slice_index bytes.now t.0 ≢ 32) }
    ensures more { IfSome result (λ t. (i : ℕ) → t.0 ≤ i → i + 1 < t.1 → stays (joins_in joining) (slice_index bytes.now i) (slice_index bytes.now (i + 1)) ≡ true) }
    ensures end { IfSome result (λ t. t.1 < length bytes.now → stays (joins_in joining) (slice_index bytes.now (t.1 - 1)) (slice_index bytes.now t.1) ≡ false) }
{
    let mut start = 0;
    while start < bytes.len() && bytes[start] == b' ' {
        start += 1;
    }
    if start == bytes.len() {
        return None;
    }
    let mut end = start + 1;
    while end < bytes.len() && stays_with(joining, bytes[end - 1], bytes[end]) {
        end += 1;
    }
    Some((start, end))
}

impl<'a> Cursor<'a> {
    /// The words of a whole line.
    pub fn words(line: &Line<'a>) -> Self
        ensures { result ≡ rest_of_line line.now.number line.now.text.now }
    {
        Cursor {
            joining: Joining::Words,
            line: line.number,
            column: 1,
            rest: line.text,
        }
    }

    /// The tokens of a text that stands in the line from the column on; its end's column is less than 2^32.
    pub fn new(joining: Joining, line: u32, column: u32, text: &'a [u8]) -> Self
        requires { column + length text.now < 2 ^ 32 }
        ensures { result ≡ rest_from joining line column text.now }
    {
        Cursor {
            joining,
            line,
            column,
            rest: text,
        }
    }

    /// The line's number.
    pub fn line(&self) -> u32
        ensures { result ≡ self.now.line }
    {
        self.line
    }

    /// The column one past the end of the line, or of the part of it.
    pub fn past(&self) -> u32
        ensures { result ≡ self.now.past }
    {
        self.column + self.rest.len() as u32
    }

    /// The next token, and the cursor after it; none where spaces alone are left.
    pub fn peek_token(&self) -> Option<(Token<'a>, Cursor<'a>)>
        ensures none { IfNone result (next_token self.now ≡ None) }
        ensures some { IfSome result (λ p. next_token self.now ≡ Some (record { column = p.0.column; text = p.0.text.now }, p.1)) }
    {
        let Some((start, end)) = first_token(self.joining, self.rest) else {
            return None;
        };
        let token = Token {
            column: self.column + start as u32,
            text: &self.rest[start..end],
        };
        let after = Cursor {
            joining: self.joining,
            line: self.line,
            column: self.column + end as u32,
            rest: &self.rest[end..],
        };
        Some((token, after))
    }

    /// The next token; none where spaces alone are left, and then nothing is changed.
    pub fn next_token(&mut self) -> Option<Token<'a>>
        ensures none { IfNone result (next_token self.old ≡ None) }
        ensures stays { IfNone result (self.new ≡ self.old) }
        ensures some { IfSome result (λ t. next_token self.old ≡ Some (record { column = t.column; text = t.text.now }, self.new)) }
    {
        let (token, after) = self.peek_token()?;
        *self = after;
        Some(token)
    }
}
