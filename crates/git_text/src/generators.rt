//! The lines of the generators.
ghost use Rattle.std.specs.Prelude.{◌≡◌, ◌-◌};
ghost use Rattle.git_lines.specs.Views.{line_of, rest_of_text};
ghost use Rattle.git_lines.specs.Reading.{times};
ghost use Rattle.git_text.specs.Faults.{GivesUnlessFull};
ghost use Rattle.git_text.specs.Reading;
ghost use Rattle.git_text.specs.Reading.{next_by, generators_at};

use crate::fault::{BadKind, InputFault};
use crate::fields::ideal;
use git_grading::Grading;
use git_lines::{Line, Lines};
use git_poly::Poly;
use git_polytext::read_polynomial;
use std::alloc::Global;

/// A generator, where the line of the number of generators is numbered `before`.
#[tactic(auto, unfolding(crate::specs::Reading::generator_line))]
fn generator_line(
    alloc: Global,
    grading: &Grading,
    before: u32,
    line: &Line<'_>,
) -> Result<Poly, InputFault>
    ensures { GivesUnlessFull (λ p. p) result (Rattle.git_text.specs.Reading.generator_line grading.now before line.now.number line.now.text.now) }
{
    let p = read_polynomial(alloc, line, grading.r())?;
    match p.mixed(grading) {
        None => Ok(p),
        Some(pair) => Err(InputFault::Bad {
            line: line.number,
            column: 1,
            kind: BadKind::Homogeneous {
                generator: line.number.saturating_sub(before),
                first: pair.0,
                second: pair.1,
            },
        }),
    }
}

#[tactic(auto, unfolding(git_lines::specs::Reading::line_by))]
fn next_generator(
    alloc: Global,
    lines: &mut Lines<'_>,
    grading: &Grading,
    before: u32,
) -> Result<Poly, InputFault>
    ensures { GivesUnlessFull (λ p. (p, rest_of_text lines.new)) result (next_by (Rattle.git_text.specs.Reading.generator_line grading.now before) (rest_of_text lines.old)) }
{
    let line = lines.next_line()?;
    generator_line(alloc, grading, before, &line)
}

/// The next lines as generators, so many.
fn generators_of(
    alloc: Global,
    lines: &mut Lines<'_>,
    grading: &Grading,
    before: u32,
    count: usize,
) -> Result<Vec<Poly>, InputFault>
    ensures { GivesUnlessFull (λ v. (v.items, rest_of_text lines.new)) result
        (times (next_by (Rattle.git_text.specs.Reading.generator_line grading.now before)) count (rest_of_text lines.old)) }
{
    let mut generators = Vec::with_capacity(alloc, count)?;
    for _ in 0..count {
        let next = next_generator(alloc, lines, grading, before)?;
        generators.push(next)?;
    }
    Ok(generators)
}

/// The line of the number of generators, and the generators.
#[tactic(auto, unfolding(crate::specs::Reading::generators_at))]
pub(crate) fn generators(
    alloc: Global,
    lines: &mut Lines<'_>,
    grading: &Grading,
) -> Result<Vec<Poly>, InputFault>
    ensures { GivesUnlessFull (λ v. (v.items, rest_of_text lines.new)) result (generators_at grading.now (rest_of_text lines.old)) }
{
    let before = lines.line;
    let count = ideal(lines)?;
    generators_of(alloc, lines, grading, before, count)
}
