//! The text of all cones and of the verdict.
ghost use Rattle.std.specs.Prelude.{◌≡◌, ◌==◌, ◌+◌, ◌++◌, map, IfOk, OnOk};
ghost use Rattle.std.specs.Fmt.{signed_decimal};
ghost use Rattle.std.specs.List.{count_by, flat_map, range_with_len};
ghost use Rattle.std.specs.String.{string_bytes};
ghost use Rattle.git_lines.specs.Printing.{after_spaces, number_line};
ghost use Rattle.git_allcones.specs.Faces.{face_of};
ghost use Rattle.git_cone_text.specs.ConesText.{cone_text, cones_text, count_text, dimension_text, faces_of, later_words, rays_words, verdict_text};

use git_allcones::{FaceOf, FanVerdict};
use git_base::NoMemory;
use git_ints::IVec;
use std::alloc::{AllocError, Global};
use std::fmt::Write;

/// Each entry after a space.
fn push_entries(out: &mut String, entries: &[i128]) -> Result<(), AllocError>
    ensures { OnOk result (string_bytes out.new ≡ string_bytes out.old ++ after_spaces (map signed_decimal entries.now)) }
{
    for entry in entries {
        write!(out, " {entry}")?;
    }
    Ok(())
}

/// The rays, each after a semicolon.
fn push_later(out: &mut String, rays: &[IVec]) -> Result<(), AllocError>
    ensures { OnOk result (string_bytes out.new ≡ string_bytes out.old ++ after_spaces (flat_map later_words rays.now)) }
{
    for ray in rays {
        out.push_str(" ;")?;
        push_entries(out, ray.as_slice())?;
    }
    Ok(())
}

/// The rays, with a semicolon between each two.
fn push_rays(out: &mut String, rays: &[IVec]) -> Result<(), AllocError>
    ensures { OnOk result (string_bytes out.new ≡ string_bytes out.old ++ after_spaces (rays_words rays.now)) }
{
    let Some((first, later)) = rays.split_first() else {
        return Ok(());
    };
    push_entries(out, first.as_slice())?;
    push_later(out, later)?;
    Ok(())
}

/// The line of a face.
fn push_cone(out: &mut String, face: &FaceOf) -> Result<(), AllocError>
    ensures { OnOk result (string_bytes out.new ≡ string_bytes out.old ++ cone_text (face_of face.now)) }
{
    out.push_str("cone")?;
    push_rays(out, &face.rays)?;
    out.push_str("\n")
}

/// The lines of the faces of a dimension.
fn push_cones(out: &mut String, dimension: usize, faces: &[FaceOf]) -> Result<(), AllocError>
    ensures { OnOk result (string_bytes out.new ≡ string_bytes out.old ++ flat_map cone_text (faces_of dimension (map face_of faces.now))) }
{
    for face in faces {
        if face.dimension as usize == dimension {
            push_cone(out, face)?;
        }
    }
    Ok(())
}

/// How many of the faces have a dimension.
fn faces_among(dimension: usize, faces: &[FaceOf]) -> usize
    ensures { result ≡ count_by (λ f. f.dimension == dimension) faces.now }
{
    faces
        .iter()
        .filter(|face| face.dimension as usize == dimension)
        .count()
}

/// The line of a dimension and of how many faces have it.
fn push_count(out: &mut String, dimension: usize, count: usize) -> Result<(), AllocError>
    ensures { OnOk result (string_bytes out.new ≡ string_bytes out.old ++ count_text dimension count) }
{
    writeln!(out, "dimension {dimension} count {count}")
}

/// The lines of a dimension.
fn push_dimension(out: &mut String, dimension: usize, faces: &[FaceOf]) -> Result<(), AllocError>
    ensures { OnOk result (string_bytes out.new ≡ string_bytes out.old ++ dimension_text (map face_of faces.now) dimension) }
{
    let count = faces_among(dimension, faces);
    push_count(out, dimension, count)?;
    push_cones(out, dimension, faces)?;
    Ok(())
}

/// The lines of all dimensions.
fn push_dimensions(out: &mut String, k: u32, faces: &[FaceOf]) -> Result<(), AllocError>
    ensures { OnOk result (string_bytes out.new ≡ string_bytes out.old ++ flat_map (dimension_text (map face_of faces.now)) (range_with_len 0 (k + 1))) }
{
    for dimension in 0..k as usize + 1 {
        push_dimension(out, dimension, faces)?;
    }
    Ok(())
}

/// The line of the verdict.
fn push_verdict(out: &mut String, verdict: FanVerdict) -> Result<(), AllocError>
    ensures { OnOk result (string_bytes out.new ≡ string_bytes out.old ++ verdict_text verdict) }
{
    match verdict {
        FanVerdict::Yes => out.push_str("fan yes\n"),
        FanVerdict::No { first, second } => writeln!(out, "fan no {first} {second}"),
    }
}

/// A line of a word and a number.
fn push_number(out: &mut String, word: &str, number: usize) -> Result<(), AllocError>
    ensures { OnOk result (string_bytes out.new ≡ string_bytes out.old ++ number_line word.now number) }
{
    out.push_str(word)?;
    writeln!(out, " {number}")
}

fn push_all(
    out: &mut String,
    k: u32,
    faces: &[FaceOf],
    verdict: FanVerdict,
) -> Result<(), AllocError>
    ensures { OnOk result (string_bytes out.new ≡ string_bytes out.old ++ cones_text k (map face_of faces.now) verdict) }
{
    push_number(out, "gitfan-cones", 1)?;
    push_dimensions(out, k, faces)?;
    push_verdict(out, verdict)?;
    out.push_str("end\n")?;
    Ok(())
}

/// The text of the faces of chambers of dimension `k` and of the verdict on them: the faces by their
/// dimensions from 0 to `k`, in the order in which they are given, one space between each two words, and a
/// line feed after each line.
pub fn print(
    alloc: Global,
    k: u32,
    faces: &[FaceOf],
    verdict: FanVerdict,
) -> Result<Vec<u8>, NoMemory>
    ensures { IfOk result (λ text. text.items ≡ cones_text k (map face_of faces.now) verdict) }
{
    let mut out = String::new(alloc);
    match push_all(&mut out, k, faces, verdict) {
        Ok(()) => Ok(out.into_bytes()),
        Err(_) => Err(NoMemory),
    }
}
