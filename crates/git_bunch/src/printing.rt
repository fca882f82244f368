//! The text of bunches.
ghost use Rattle.std.specs.Prelude.{◌≡◌, ◌++◌, ◌∷◌, [], map, codes, OnOk, IfOk};
ghost use Rattle.std.specs.List.{flat_map};
ghost use Rattle.std.specs.Fmt.{decimal, signed_decimal};
ghost use Rattle.std.specs.String.{string_bytes};
ghost use Rattle.git_lines.specs.Printing.{after_spaces, line_text, number_line};
ghost use Rattle.git_bunch.specs.BunchText.{bunch_text, bunches_from, bunches_text, facet_line, head_text, masks_line, step_text};
ghost use Rattle.git_bunch.specs.Views.{bunch_of, step_of};

use crate::values::{Bunch, Step};
use git_base::NoMemory;
use git_ints::IVec;
use std::alloc::{AllocError, Global};
use std::fmt::Write;

/// Each entry after a space.
fn push_entries(out: &mut String, entries: &[i128]) -> Result<(), AllocError>
    ensures { OnOk result (string_bytes out.new ≡ string_bytes out.old ++ after_spaces (map signed_decimal entries.now)) }
{
    for entry in entries {
        write!(out, " {entry}")?;
    }
    Ok(())
}

/// Each mask after a space.
fn push_masks(out: &mut String, masks: &[u16]) -> Result<(), AllocError>
    ensures { OnOk result (string_bytes out.new ≡ string_bytes out.old ++ after_spaces (map decimal masks.now)) }
{
    for mask in masks {
        write!(out, " {mask}")?;
    }
    Ok(())
}

/// A line of a word and a number.
fn push_number(out: &mut String, word: &str, number: usize) -> Result<(), AllocError>
    ensures { OnOk result (string_bytes out.new ≡ string_bytes out.old ++ number_line word.now number) }
{
    out.push_str(word)?;
    writeln!(out, " {number}")
}

/// A line of a word and masks.
fn push_line(out: &mut String, word: &str, masks: &[u16]) -> Result<(), AllocError>
    ensures { OnOk result (string_bytes out.new ≡ string_bytes out.old ++ masks_line word.now masks.now) }
{
    out.push_str(word)?;
    push_masks(out, masks)?;
    out.push_str("\n")
}

/// The line of an inner facet.
fn push_facet(out: &mut String, normal: &IVec, to: u32) -> Result<(), AllocError>
    ensures { OnOk result (string_bytes out.new ≡ string_bytes out.old ++ facet_line normal.now to) }
{
    out.push_str("facet")?;
    push_entries(out, normal.as_slice())?;
    writeln!(out, " inner {to}")?;
    Ok(())
}

fn push_step(out: &mut String, step: &Step) -> Result<(), AllocError>
    ensures { OnOk result (string_bytes out.new ≡ string_bytes out.old ++ step_text (step_of step.now)) }
{
    push_facet(out, &step.normal, step.to)?;
    push_line(out, "lost", &step.lost)?;
    push_line(out, "gained", &step.gained)?;
    push_line(out, "wall", &step.wall)
}

fn push_steps(out: &mut String, steps: &[Step]) -> Result<(), AllocError>
    ensures { OnOk result (string_bytes out.new ≡ string_bytes out.old ++ flat_map step_text (map step_of steps.now)) }
{
    for step in steps {
        push_step(out, step)?;
    }
    Ok(())
}

fn push_bunch(out: &mut String, number: usize, bunch: &Bunch) -> Result<(), AllocError>
    ensures { OnOk result (string_bytes out.new ≡ string_bytes out.old ++ bunch_text number (bunch_of bunch.now)) }
{
    push_number(out, "chamber", number)?;
    push_line(out, "minimal", &bunch.minimal)?;
    push_steps(out, &bunch.steps)
}

fn push_bunches(out: &mut String, bunches: &[Bunch]) -> Result<(), AllocError>
    ensures { OnOk result (string_bytes out.new ≡ string_bytes out.old ++ bunches_from 1 (map bunch_of bunches.now)) }
{
    for (i, bunch) in bunches.iter().enumerate() {
        push_bunch(out, i + 1, bunch)?;
    }
    Ok(())
}

/// The lines before the first chamber.
fn push_head(out: &mut String, count: usize) -> Result<(), AllocError>
    ensures { OnOk result (string_bytes out.new ≡ string_bytes out.old ++ head_text count) }
{
    push_number(out, "gitfan-bunch", 1)?;
    push_number(out, "chambers", count)?;
    Ok(())
}

fn push_text(out: &mut String, bunches: &[Bunch]) -> Result<(), AllocError>
    ensures { OnOk result (string_bytes out.new ≡ string_bytes out.old ++ bunches_text (map bunch_of bunches.now)) }
{
    push_head(out, bunches.len())?;
    push_bunches(out, bunches)?;
    writeln!(out, "end")
}

/// The text of bunches: one space between each two words, and a line feed after each line. Chambers are numbered
/// from 1.
pub fn print(alloc: Global, bunches: &[Bunch]) -> Result<Vec<u8>, NoMemory>
    ensures { IfOk result (λ text. text.items ≡ bunches_text (map bunch_of bunches.now)) }
{
    let mut out = String::new(alloc);
    match push_text(&mut out, bunches) {
        Ok(()) => Ok(out.into_bytes()),
        Err(_) => Err(NoMemory),
    }
}
