//! A text, line by line.
ghost use Rattle.std.specs.Prelude.{◌≡◌, ◌≢◌, ◌+◌, ◌-◌, ◌<◌, ◌≤◌, ◌^◌, ℕ, [], ◌∷◌, length, drop, slice_index, IfSome, IfNone, OnErr};
ghost use Rattle.git_lines.specs.Lines.{lines_of, without_last, text_from};
ghost use Rattle.git_lines.specs.Reading.{Gives, next_line, next_ended_line, no_line};

use crate::fault::{FormFault, FormKind};

/// A line without its end, and its number from 1.
#[derive(Clone, Copy, Debug, PartialEq, Eq)]
pub struct Line<'a> {
    pub number: u32,
    pub text: &'a [u8],
    ghost short: { length text.now < 2 ^ 32 - 1 },
}

/// What is left of a text: from the byte `at` on, which begins the line numbered `line`.
#[derive(Drop)]
pub struct Lines<'a> {
    pub line: u32,
    pub bytes: &'a [u8],
    pub at: usize,
    ghost within: { at ≤ length bytes.now },
    ghost numbered: { line ≤ at + 1 },
    ghost short: { length bytes.now < 2 ^ 32 - 1 },
}

/// How many bytes the first line has, its line feed included.
fn first_line_len(bytes: &[u8]) -> usize
    requires { 0 < length bytes.now }
    ensures some { 0 < result }
    ensures within { result ≤ length bytes.now }
    ensures inside { (i : ℕ) → i + 1 < result → slice_index bytes.now i ≢ 10 }
    ensures end { result < length bytes.now → slice_index bytes.now (result - 1) ≡ 10 }
{
    let mut end = 1;
    while end < bytes.len() && bytes[end - 1] != b'\n' {
        end += 1;
    }
    end
}

/// The line without its last byte, if that is `byte`.
fn without(byte: u8, line: &[u8]) -> &[u8]
    ensures value { result.now ≡ without_last byte line.now }
    ensures short { length result.now ≤ length line.now }
{
    match line {
        [front @ .., last] if *last == byte => front,
        _ => line,
    }
}

impl<'a> Lines<'a> {
    ghost use Rattle.git_lines.specs.Views.{line_of, rest_of_text};

    /// The whole text, of fewer than 2^32 - 1 bytes.
    pub fn new(bytes: &'a [u8]) -> Self
        requires { length bytes.now < 2 ^ 32 - 1 }
        ensures { (result.line ≡ 1) × (result.at ≡ 0) × (result.bytes.now ≡ bytes.now) }
    {
        Lines {
            line: 1,
            bytes,
            at: 0,
        }
    }

    /// A fault at the first byte of the line that comes next.
    fn fault(&self, kind: FormKind) -> FormFault
        ensures { result ≡ record { line = self.now.line; column = 1; kind = kind } }
    {
        FormFault {
            line: self.line,
            column: 1,
            kind,
        }
    }

    /// The bytes of the next line, its line feed included.
    fn raw_line(&self) -> Option<&'a [u8]>
        ensures none { IfNone result ((rest_of_text self.now).lines ≡ []) }
        ensures some { IfSome result (λ l. (rest_of_text self.now).lines ≡ l.now ∷ lines_of (drop (self.now.at + length l.now) self.now.bytes.now)) }
        ensures full { IfSome result (λ l. 0 < length l.now) }
        ensures within { IfSome result (λ l. self.now.at + length l.now ≤ length self.now.bytes.now) }
    {
        let rest = &self.bytes[self.at..];
        if rest.is_empty() {
            return None;
        }
        Some(&rest[..first_line_len(rest)])
    }

    /// Goes past a line of so many bytes, and gives its text and its number.
    fn pass(&mut self, len: usize, text: &'a [u8]) -> Line<'a>
        requires full { 0 < len }
        requires within { self.old.at + len ≤ length self.old.bytes.now }
        requires short { length text.now ≤ len }
        ensures line { line_of result ≡ record { number = self.old.line; text = text.now } }
        ensures rest { rest_of_text self.new ≡ text_from (self.old.line + 1) (self.old.at + len) self.old.bytes.now }
        ensures bytes { self.new.bytes.now ≡ self.old.bytes.now }
    {
        let line = Line {
            number: self.line,
            text,
        };
        self.line += 1;
        self.at += len;
        line
    }

    /// The next line without its end, a line feed with or without one carriage return before it. The last line may lack
    /// its line feed. Where no line is left: `Truncated` at the line that is missing, column 1, and nothing is changed.
    #[tactic(auto, unfolding(crate::specs::Reading::next_line))]
    pub fn next_line(&mut self) -> Result<Line<'a>, FormFault>
        ensures reads { Gives (λ l. (line_of l, rest_of_text self.new)) result (next_line (rest_of_text self.old)) }
        ensures bytes { self.new.bytes.now ≡ self.old.bytes.now }
        ensures stays { OnErr result (self.new ≡ self.old) }
    {
        let Some(raw) = self.raw_line() else {
            return Err(self.fault(FormKind::Truncated));
        };
        Ok(self.pass(raw.len(), without(b'\r', without(b'\n', raw))))
    }

    /// The next line without its line feed, which has to be there; a carriage return is a byte like any other. Where no line
    /// is left, or the line lacks its line feed: `Truncated` at that line, column 1, and nothing is changed.
    #[tactic(auto, unfolding(crate::specs::Reading::next_ended_line))]
    pub fn next_ended_line(&mut self) -> Result<Line<'a>, FormFault>
        ensures reads { Gives (λ l. (line_of l, rest_of_text self.new)) result (next_ended_line (rest_of_text self.old)) }
        ensures bytes { self.new.bytes.now ≡ self.old.bytes.now }
        ensures stays { OnErr result (self.new ≡ self.old) }
    {
        let Some(raw) = self.raw_line() else {
            return Err(self.fault(FormKind::Truncated));
        };
        match raw {
            [text @ .., b'\n'] => Ok(self.pass(raw.len(), text)),
            _ => Err(self.fault(FormKind::Truncated)),
        }
    }

    /// No byte is left; else `Trailing` at the first of them.
    #[tactic(auto, unfolding(crate::specs::Reading::no_line))]
    pub fn no_line(&self) -> Result<(), FormFault>
        ensures { Gives (λ x. tt) result (no_line (rest_of_text self.now)) }
    {
        if self.at == self.bytes.len() {
            Ok(())
        } else {
            Err(self.fault(FormKind::Trailing))
        }
    }
}
