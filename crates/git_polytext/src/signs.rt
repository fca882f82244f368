//! The signs and numbers of a factor, and a power of a variable.
ghost use Rattle.std.specs.Prelude.{◌≡◌, ◌+◌, ◌-◌, ◌<◌, ◌≤◌, ◌^◌, ℕ, IfOk};
ghost use Rattle.git_algebra.specs.Exponents.{Exponents, exponent};
ghost use Rattle.git_lines.specs.Reading.{Gives};
ghost use Rattle.git_polytext.specs.Reading;
ghost use Rattle.git_polytext.specs.Reading.{known, raised};

use crate::fault::PolynomialFault;
use git_limits::{COLUMNS, EXPONENT};
use git_lines::{Cursor, FormFault, FormKind, are_digits, value_of};
use git_mono::Mono;

/// A fault of form at a place.
pub(crate) fn fault_at(line: u32, column: u32, kind: FormKind) -> PolynomialFault
    ensures { result ≡ PolynomialFault.Form (record { line = line; column = column; kind = kind }) }
{
    PolynomialFault::Form(FormFault { line, column, kind })
}

/// A number of at most `limit` digits.
#[tactic(auto, unfolding(crate::specs::Reading::number_sign))]
pub(crate) fn number_sign(signs: &mut Cursor<'_>, limit: u32) -> Result<u64, PolynomialFault>
    requires { limit ≤ 18 }
    ensures reads { Gives (λ x. (x, signs.new)) result (Rattle.git_polytext.specs.Reading.number_sign limit signs.old) }
    ensures small { IfOk result (λ x. x < 10 ^ 18) }
{
    let past = signs.past();
    let line = signs.line();
    let Some(token) = signs.next_token() else {
        return Err(fault_at(line, past, FormKind::Syntax));
    };
    if !are_digits(token.text) {
        return Err(fault_at(line, token.column, FormKind::Syntax));
    }
    if token.text.len() > limit as usize {
        return Err(fault_at(line, token.column + limit, FormKind::Syntax));
    }
    Ok(value_of(token.text))
}

/// `T(`, and the column of its first byte.
#[tactic(auto, unfolding(crate::specs::Reading::bracket_sign))]
fn bracket_sign(signs: &mut Cursor<'_>) -> Result<u32, PolynomialFault>
    ensures { Gives (λ x. (x, signs.new)) result (Rattle.git_polytext.specs.Reading.bracket_sign signs.old) }
{
    let past = signs.past();
    let line = signs.line();
    let Some(token) = signs.next_token() else {
        return Err(fault_at(line, past, FormKind::Syntax));
    };
    if token.text == b"T(".as_slice() {
        return Ok(token.column);
    }
    if token.text == b"T".as_slice() {
        return Err(fault_at(line, token.column + 1, FormKind::Syntax));
    }
    Err(fault_at(line, token.column, FormKind::Syntax))
}

/// The exponent after `^`, or 1 where none follows.
#[tactic(auto, unfolding(crate::specs::Reading::exponent_sign))]
fn exponent_sign(signs: &mut Cursor<'_>) -> Result<u64, PolynomialFault>
    ensures reads { Gives (λ x. (x, signs.new)) result (Rattle.git_polytext.specs.Reading.exponent_sign signs.old) }
    ensures small { IfOk result (λ x. x < 10 ^ 18) }
{
    let Some((token, after)) = signs.peek_token() else {
        return Ok(1);
    };
    if token.text != b"^".as_slice() {
        return Ok(1);
    }
    *signs = after;
    number_sign(signs, 4)
}

/// No sign more.
#[tactic(auto, unfolding(crate::specs::Reading::no_sign))]
pub(crate) fn no_sign(signs: &Cursor<'_>) -> Result<(), PolynomialFault>
    ensures { Gives (λ x. tt) result (Rattle.git_polytext.specs.Reading.no_sign signs.now) }
{
    match signs.peek_token() {
        None => Ok(()),
        Some((token, _)) => Err(fault_at(signs.line(), token.column, FormKind::Syntax)),
    }
}

/// There is a variable of this index.
fn check_known(r: usize, line: u32, column: u32, index: u64) -> Result<(), PolynomialFault>
    ensures { Gives (λ x. tt) result (known r line column index) }
{
    if index < 1 || index > r as u64 {
        return Err(PolynomialFault::Variable { line, column });
    }
    Ok(())
}

/// The monomial of a term times one power more.
fn raise(line: u32, start: u32, m: &Mono, place: usize, e: u64) -> Result<Mono, PolynomialFault>
    requires place { place < 17 }
    requires exponent { e < 10 ^ 18 }
    requires small { (i : ℕ) → exponent m.now i ≤ EXPONENT }
    ensures reads { Gives (λ x. x) result (raised line start m.now place e) }
    ensures small { IfOk result (λ x. (i : ℕ) → exponent x i ≤ EXPONENT) }
{
    let sum = u64::from(m.exponent(place)) + e;
    if sum > u64::from(EXPONENT) {
        return Err(fault_at(line, start, FormKind::Range));
    }
    let power = Mono::power(place, e as u32).unwrap();
    Ok(m.times(&power).unwrap())
}

/// A power of a variable, to the monomial of the term that begins at a column, and nothing after it.
#[tactic(auto, unfolding(crate::specs::Reading::power_signs))]
pub(crate) fn power_signs(
    r: usize,
    start: u32,
    m: &Mono,
    signs: &mut Cursor<'_>,
) -> Result<Mono, PolynomialFault>
    requires variables { r ≤ COLUMNS }
    requires small { (i : ℕ) → exponent m.now i ≤ EXPONENT }
    ensures reads { Gives (λ x. x) result (Rattle.git_polytext.specs.Reading.power_signs r start m.now signs.old) }
    ensures small { IfOk result (λ x. (i : ℕ) → exponent x i ≤ EXPONENT) }
{
    let line = signs.line();
    let column = bracket_sign(signs)?;
    let index = number_sign(signs, 4)?;
    check_known(r, line, column, index)?;
    signs.word_token(b")")?;
    let e = exponent_sign(signs)?;
    let raised = raise(line, start, m, (index - 1) as usize, e)?;
    no_sign(signs)?;
    Ok(raised)
}
