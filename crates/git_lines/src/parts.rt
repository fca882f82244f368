//! A text, part by part between separators.
ghost use Rattle.std.specs.Prelude.{◌≡◌, ◌+◌, ◌<◌, ◌≤◌, ◌^◌, ℕ, true, false, [], ◌∷◌, length, slice_index, IfSome, IfNone, IsTrue, ◌↔◌};
ghost use Rattle.git_lines.specs.Parts.{parts, separates};

use std::marker::Model;

/// Which bytes part a text.
#[derive(Clone, Copy, Debug, PartialEq, Eq)]
pub enum Separator {
    /// A space.
    Space,
    /// `*`.
    Star,
    /// `+` and `-`.
    PlusOrMinus,
}

/// What stands between two separators, maybe nothing: the separator before it, if any, the column of its first byte,
/// and its bytes.
#[derive(Clone, Copy, Debug, PartialEq, Eq)]
pub struct Part<'a> {
    pub separator: Option<u8>,
    pub column: u32,
    pub text: &'a [u8],
    ghost fits: { column + length text.now < 2 ^ 32 },
}

/// The parts of a text that are left.
#[derive(Drop)]
pub struct Parts<'a> {
    by: Separator,
    more: bool,
    separator: Option<u8>,
    column: u32,
    rest: &'a [u8],
}

impl<'a> Model for Parts<'a> {
    ghost use Rattle.std.specs.Prelude.{List, ◌+◌, ◌<◌, ◌^◌, length};
    ghost use Rattle.git_lines.specs.Parts.{Part, parts_left, separates};

    ghost Value = { List Part };

    ghost view = { λ p. parts_left p.more (separates p.by) p.separator p.column p.rest.now };

    ghost invariant = { λ p. p.column + length p.rest.now < 2 ^ 32 };
}

/// Whether the byte parts a text.
fn is_separator(by: Separator, byte: u8) -> bool
    ensures { result ≡ separates by byte }
{
    match by {
        Separator::Space => byte == b' ',
        Separator::Star => byte == b'*',
        Separator::PlusOrMinus => byte == b'+' || byte == b'-',
    }
}

/// Where the first part ends.
fn part_end(by: Separator, bytes: &[u8]) -> usize
    ensures within { result ≤ length bytes.now }
    ensures none { (i : ℕ) → i < result → separates by (slice_index bytes.now i) ≡ false }
    ensures end { result < length bytes.now → separates by (slice_index bytes.now result) ≡ true }
{
    let mut end = 0;
    while end < bytes.len() && !is_separator(by, bytes[end]) {
        end += 1;
    }
    end
}

impl<'a> Parts<'a> {
    /// The parts of a text that stands in a line from the column on; its end's column is less than 2^32.
    pub fn new(by: Separator, column: u32, text: &'a [u8]) -> Self
        requires { column + length text.now < 2 ^ 32 }
        ensures { result ≡ parts by column text.now }
    {
        Parts {
            by,
            more: true,
            separator: None,
            column,
            rest: text,
        }
    }

    /// Whether no part is left.
    pub fn is_empty(&self) -> bool
        ensures { IsTrue result ↔ (self.now ≡ []) }
    {
        !self.more
    }

    /// The next part.
    pub fn next_part(&mut self) -> Option<Part<'a>>
        ensures none { IfNone result (self.old ≡ []) }
        ensures stays { IfNone result (self.new ≡ self.old) }
        ensures some { IfSome result (λ p. self.old ≡ record { separator = p.separator; column = p.column; text = p.text.now } ∷ self.new) }
    {
        if !self.more {
            return None;
        }
        let end = part_end(self.by, self.rest);
        let part = Part {
            separator: self.separator,
            column: self.column,
            text: &self.rest[..end],
        };
        if end == self.rest.len() {
            self.more = false;
            return Some(part);
        }
        self.separator = Some(self.rest[end]);
        self.column += end as u32 + 1;
        self.rest = &self.rest[end + 1..];
        Some(part)
    }
}
