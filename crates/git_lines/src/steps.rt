//! The steps by which a line is read from the left. Each gives the first fault with its place, and then changes nothing.
ghost use Rattle.std.specs.Prelude.{◌≡◌, ◌≤ℤ◌, IfOk, OnErr};
ghost use Rattle.git_lines.specs.Reading.{Gives};

use crate::fault::{FormFault, FormKind};
use crate::numbers::integer_of;
use crate::tokens::{Cursor, Token};

impl Cursor<'_> {
    /// A fault one past the line's end.
    fn missing(&self, kind: FormKind) -> FormFault
        ensures { result ≡ record { line = self.now.line; column = self.now.past; kind = kind } }
    {
        FormFault {
            line: self.line(),
            column: self.past(),
            kind,
        }
    }

    /// A fault at a token of the line.
    fn wrong(&self, token: &Token<'_>, kind: FormKind) -> FormFault
        ensures { result ≡ record { line = self.now.line; column = token.now.column; kind = kind } }
    {
        FormFault {
            line: self.line(),
            column: token.column,
            kind,
        }
    }

    /// The needed word comes next. Another token is `Syntax` at its column, no token `Syntax` one past the line's end.
    #[tactic(auto, unfolding(crate::specs::Reading::word_token))]
    pub fn word_token(&mut self, word: &[u8]) -> Result<(), FormFault>
        ensures reads { Gives (λ x. self.new) result (Rattle.git_lines.specs.Reading.word_token word.now self.old) }
        ensures stays { OnErr result (self.new ≡ self.old) }
    {
        let Some((token, after)) = self.peek_token() else {
            return Err(self.missing(FormKind::Syntax));
        };
        if token.text != word {
            return Err(self.wrong(&token, FormKind::Syntax));
        }
        *self = after;
        Ok(())
    }

    /// An integer from `low` to `high` comes next. No token is `Count` one past the line's end, a token that is no
    /// integer is `Number`, and an integer outside the limits `Range`, both at the token.
    #[tactic(auto, unfolding(crate::specs::Reading::integer_token))]
    pub fn integer_token(&mut self, low: i64, high: i64) -> Result<i64, FormFault>
        ensures reads { Gives (λ x. (x, self.new)) result (Rattle.git_lines.specs.Reading.integer_token low high self.old) }
        ensures stays { OnErr result (self.new ≡ self.old) }
        ensures low { IfOk result (λ x. low ≤ℤ x) }
        ensures high { IfOk result (λ x. x ≤ℤ high) }
    {
        let Some((token, after)) = self.peek_token() else {
            return Err(self.missing(FormKind::Count));
        };
        let Some(value) = integer_of(token.text) else {
            return Err(self.wrong(&token, FormKind::Number));
        };
        if value < low || high < value {
            return Err(self.wrong(&token, FormKind::Range));
        }
        *self = after;
        Ok(value)
    }

    /// No token is left; else `Count` at the next one.
    #[tactic(auto, unfolding(crate::specs::Reading::no_token))]
    pub fn no_token(&self) -> Result<(), FormFault>
        ensures { Gives (λ x. tt) result (Rattle.git_lines.specs.Reading.no_token self.now) }
    {
        match self.peek_token() {
            None => Ok(()),
            Some((token, _)) => Err(self.wrong(&token, FormKind::Count)),
        }
    }
}
