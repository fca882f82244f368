//! The text of weights and of where they lie.
ghost use Rattle.std.specs.Prelude.{◌≡◌, ◌++◌, map, codes, OnOk, IfOk};
ghost use Rattle.std.specs.List.{flat_map};
ghost use Rattle.std.specs.Fmt.{decimal, signed_decimal};
ghost use Rattle.std.specs.String.{string_bytes};
ghost use Rattle.git_lines.specs.Printing.{after_spaces, integers_line, number_line};
ghost use Rattle.git_locate.specs.Places.{inside};
ghost use Rattle.git_locate.specs.PlaceText.{head_text, numbers_line, place_text, placed_text, places_text};
ghost use Rattle.git_locate.specs.Views.{place_of, placed_of};

use crate::located::{Located, LocatedWeight};
use git_base::NoMemory;
use git_ints::IVec;
use std::alloc::{AllocError, Global};
use std::fmt::Write;

/// Each entry after a space.
fn push_entries(out: &mut String, entries: &[i128]) -> Result<(), AllocError>
    ensures { OnOk result (string_bytes out.new ≡ string_bytes out.old ++ after_spaces (map signed_decimal entries.now)) }
{
    for entry in entries {
        write!(out, " {entry}")?;
    }
    Ok(())
}

/// Each number after a space.
fn push_numbers(out: &mut String, numbers: &[u32]) -> Result<(), AllocError>
    ensures { OnOk result (string_bytes out.new ≡ string_bytes out.old ++ after_spaces (map decimal numbers.now)) }
{
    for number in numbers {
        write!(out, " {number}")?;
    }
    Ok(())
}

/// A line of a word and a number.
fn push_number(out: &mut String, word: &str, number: usize) -> Result<(), AllocError>
    ensures { OnOk result (string_bytes out.new ≡ string_bytes out.old ++ number_line word.now number) }
{
    out.push_str(word)?;
    writeln!(out, " {number}")
}

/// A line of a word and numbers.
fn push_numbers_line(out: &mut String, word: &str, numbers: &[u32]) -> Result<(), AllocError>
    ensures { OnOk result (string_bytes out.new ≡ string_bytes out.old ++ numbers_line word.now numbers.now) }
{
    out.push_str(word)?;
    push_numbers(out, numbers)?;
    out.push_str("\n")
}

/// A line of a word and a vector.
fn push_vector(out: &mut String, word: &str, v: &IVec) -> Result<(), AllocError>
    ensures { OnOk result (string_bytes out.new ≡ string_bytes out.old ++ integers_line word.now v.now) }
{
    out.push_str(word)?;
    push_entries(out, v.as_slice())?;
    out.push_str("\n")
}

fn push_rays(out: &mut String, rays: &[IVec]) -> Result<(), AllocError>
    ensures { OnOk result (string_bytes out.new ≡ string_bytes out.old ++ flat_map (integers_line (codes "ray")) rays.now) }
{
    for ray in rays {
        push_vector(out, "ray", ray)?;
    }
    Ok(())
}

/// The lines of a position.
fn push_position(
    out: &mut String,
    cones: &[u32],
    dimension: u32,
    rays: &[IVec],
    chambers: &[u32],
) -> Result<(), AllocError>
    ensures { OnOk result (string_bytes out.new ≡ string_bytes out.old ++ place_text (inside (record { cones = cones.now; rays = rays.now; dimension = dimension; chambers = chambers.now }))) }
{
    push_numbers_line(out, "cones", cones)?;
    push_number(out, "dimension", dimension as usize)?;
    push_rays(out, rays)?;
    push_numbers_line(out, "in", chambers)
}

fn push_place(out: &mut String, place: &Located) -> Result<(), AllocError>
    ensures { OnOk result (string_bytes out.new ≡ string_bytes out.old ++ place_text (place_of place.now)) }
{
    match place {
        Located::Outside(n) => push_vector(out, "outside", n),
        Located::At {
            cones,
            rays,
            dimension,
            chambers,
        } => push_position(out, cones, *dimension, rays, chambers),
    }
}

fn push_placed(out: &mut String, one: &LocatedWeight) -> Result<(), AllocError>
    ensures { OnOk result (string_bytes out.new ≡ string_bytes out.old ++ placed_text (placed_of one.now)) }
{
    push_vector(out, "weight", &one.weight)?;
    push_place(out, &one.place)
}

fn push_all(out: &mut String, all: &[LocatedWeight]) -> Result<(), AllocError>
    ensures { OnOk result (string_bytes out.new ≡ string_bytes out.old ++ flat_map placed_text (map placed_of all.now)) }
{
    for one in all {
        push_placed(out, one)?;
    }
    Ok(())
}

/// The lines before the first weight.
fn push_head(out: &mut String, count: usize) -> Result<(), AllocError>
    ensures { OnOk result (string_bytes out.new ≡ string_bytes out.old ++ head_text count) }
{
    push_number(out, "gitfan-locate", 1)?;
    push_number(out, "weights", count)?;
    Ok(())
}

fn push_text(out: &mut String, all: &[LocatedWeight]) -> Result<(), AllocError>
    ensures { OnOk result (string_bytes out.new ≡ string_bytes out.old ++ places_text (map placed_of all.now)) }
{
    push_head(out, all.len())?;
    push_all(out, all)?;
    writeln!(out, "end")
}

/// The text of weights and of where they lie: one space between each two words, and a line feed after each line.
pub fn print(alloc: Global, all: &[LocatedWeight]) -> Result<Vec<u8>, NoMemory>
    ensures { IfOk result (λ text. text.items ≡ places_text (map placed_of all.now)) }
{
    let mut out = String::new(alloc);
    match push_text(&mut out, all) {
        Ok(()) => Ok(out.into_bytes()),
        Err(_) => Err(NoMemory),
    }
}
