//! The fields of a line with single spaces, one by one, for texts in which a value has one spelling.
ghost use Rattle.std.specs.Prelude.{◌≡◌, ◌≤◌, ◌<◌, ◌≤ℤ◌, ◌^◌, ℕ, length, IfOk};
ghost use Rattle.git_lines.specs.Reading.{Gives};
ghost use Rattle.git_lines.specs.Fields.{RestOfFields, fields_in};

use crate::fault::{FormFault, FormKind};
use crate::lines::Line;
use crate::numbers::integer_once_of;
use crate::parts::{Parts, Separator};
use std::marker::Model;

/// What is left of a line with single spaces. A stray space is `Syntax` and a missing field is `Count`; a fault names
/// the line, and its column is 1.
#[derive(Drop)]
pub struct Fields<'a> {
    line: u32,
    parts: Parts<'a>,
}

impl<'a> Model for Fields<'a> {
    ghost use Rattle.std.specs.Prelude.{map};
    ghost use Rattle.git_lines.specs.Fields.{RestOfFields};

    ghost Value = { RestOfFields };

    ghost view = { λ f. record { line = f.line; fields = map (λ p. p.text) f.parts } };
}

impl<'a> Fields<'a> {
    /// The fields of a line. An empty line has none.
    pub fn new(line: &Line<'a>) -> Self
        ensures { result ≡ fields_in line.now.number line.now.text.now }
    {
        let mut parts = Parts::new(Separator::Space, 1, line.text);
        if line.text.is_empty() {
            let _ = parts.next_part();
        }
        Fields {
            line: line.number,
            parts,
        }
    }

    /// A fault of this line.
    pub fn fault(&self, kind: FormKind) -> FormFault
        ensures { result ≡ record { line = self.now.line; column = 1; kind = kind } }
    {
        FormFault {
            line: self.line,
            column: 1,
            kind,
        }
    }

    /// The next field.
    #[tactic(auto, unfolding(crate::specs::Fields::next_field))]
    pub fn next_field(&mut self) -> Result<&'a [u8], FormFault>
        ensures { Gives (λ x. (x.now, self.new)) result (Rattle.git_lines.specs.Fields.next_field self.old) }
    {
        let Some(part) = self.parts.next_part() else {
            return Err(self.fault(FormKind::Count));
        };
        if part.text.is_empty() {
            return Err(self.fault(FormKind::Syntax));
        }
        Ok(part.text)
    }

    /// The needed word; another one is `Syntax`.
    #[tactic(auto, unfolding(crate::specs::Fields::word_field))]
    pub fn word_field(&mut self, word: &[u8]) -> Result<(), FormFault>
        ensures { Gives (λ x. self.new) result (Rattle.git_lines.specs.Fields.word_field word.now self.old) }
    {
        let text = self.next_field()?;
        if text != word {
            return Err(self.fault(FormKind::Syntax));
        }
        Ok(())
    }

    /// An integer from `low` to `high` in its one spelling: `Number` where it is none, `Range` outside.
    #[tactic(auto, unfolding(crate::specs::Fields::integer_field))]
    pub fn integer_field(&mut self, low: i64, high: i64) -> Result<i64, FormFault>
        ensures reads { Gives (λ x. (x, self.new)) result (Rattle.git_lines.specs.Fields.integer_field low high self.old) }
        ensures low { IfOk result (λ x. low ≤ℤ x) }
        ensures high { IfOk result (λ x. x ≤ℤ high) }
    {
        let text = self.next_field()?;
        let Some(value) = integer_once_of(text) else {
            return Err(self.fault(FormKind::Number));
        };
        if value < low || high < value {
            return Err(self.fault(FormKind::Range));
        }
        Ok(value)
    }

    /// No field more; else `Count`.
    #[tactic(auto, unfolding(crate::specs::Fields::no_field))]
    pub fn no_field(&mut self) -> Result<(), FormFault>
        ensures { Gives (λ x. tt) result (Rattle.git_lines.specs.Fields.no_field self.old) }
    {
        match self.parts.next_part() {
            None => Ok(()),
            Some(part) => {
                if part.text.is_empty() {
                    Err(self.fault(FormKind::Syntax))
                } else {
                    Err(self.fault(FormKind::Count))
                }
            }
        }
    }
}
