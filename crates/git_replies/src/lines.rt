//! The lines of refusals of inputs.
ghost use Rattle.std.specs.Prelude.{◌≡◌, ◌≤◌, ◌++◌, ◌∷◌, [], map, IfOk, OnOk, length};
ghost use Rattle.std.specs.Fmt.{signed_decimal};
ghost use Rattle.std.specs.String.{string_bytes};
ghost use Rattle.git_base.specs.declared.status.Status.{Status};
ghost use Rattle.git_lines.specs.Printing.{after_spaces};
ghost use Rattle.git_replies.specs.Lines.{stop_text, at_words, number_words, wide_face_text, wide_chamber_text, table_wide_text, full_text};

use crate::reply::Reply;
use git_base::{NoMemory, Status};
use git_machine::Sig;
use git_stages::{WideAt, WideWhat};
use std::alloc::{AllocError, Global};
use std::fmt::Write;

/// The line of a face whose run stopped by its steps.
pub fn steps_line(alloc: Global, mask: u16) -> Result<Reply, NoMemory>
    ensures status { IfOk result (λ a. a.status ≡ Status.Steps) }
    ensures text { IfOk result (λ a. a.text.items ≡ stop_text Status.Steps mask) }
{
    let mut text = String::new(alloc);
    write!(text, "refused steps {mask}\n")?;
    Ok(Reply {
        status: Status::Steps,
        text: text.into_bytes(),
    })
}

/// The line of a face whose run stopped by a degree.
pub fn degree_line(alloc: Global, mask: u16) -> Result<Reply, NoMemory>
    ensures status { IfOk result (λ a. a.status ≡ Status.Degree) }
    ensures text { IfOk result (λ a. a.text.items ≡ stop_text Status.Degree mask) }
{
    let mut text = String::new(alloc);
    write!(text, "refused degree {mask}\n")?;
    Ok(Reply {
        status: Status::Degree,
        text: text.into_bytes(),
    })
}

/// The line of a table that would take too many words.
pub fn table_wide_line(alloc: Global, table: u32, width: usize) -> Result<Reply, NoMemory>
    ensures status { IfOk result (λ a. a.status ≡ Status.TableWide) }
    ensures text { IfOk result (λ a. a.text.items ≡ table_wide_text table width) }
{
    let mut text = String::new(alloc);
    write!(text, "refused tablewide {table} {width}\n")?;
    Ok(Reply {
        status: Status::TableWide,
        text: text.into_bytes(),
    })
}

/// The line of a table that is too small.
pub fn full_line(alloc: Global, table: u32) -> Result<Reply, NoMemory>
    ensures status { IfOk result (λ a. a.status ≡ Status.Full) }
    ensures text { IfOk result (λ a. a.text.items ≡ full_text table) }
{
    let mut text = String::new(alloc);
    write!(text, "refused full {table}\n")?;
    Ok(Reply {
        status: Status::Full,
        text: text.into_bytes(),
    })
}

/// Each entry after a space.
fn push_entries(out: &mut String, entries: &[i128]) -> Result<(), AllocError>
    ensures { OnOk result (string_bytes out.new ≡ string_bytes out.old ++ after_spaces (map signed_decimal entries.now)) }
{
    for entry in entries {
        write!(out, " {entry}")?;
    }
    Ok(())
}

/// The stage that is wide, and the vector or that there are many, each word after a space.
pub fn push_at(out: &mut String, at: &WideAt) -> Result<(), AllocError>
    ensures { OnOk result (string_bytes out.new ≡ string_bytes out.old ++ after_spaces (at_words at.now)) }
{
    write!(out, " stage {}", at.stage)?;
    match &at.what {
        WideWhat::Entry(x) => {
            out.push_str(" vector")?;
            push_entries(out, x.as_slice())
        }
        WideWhat::Many => out.push_str(" many"),
    }
}

/// The numbers of a signature, ascending, each after a space.
fn push_numbers(out: &mut String, sig: &Sig) -> Result<(), AllocError>
    requires { length sig.now ≤ 1024 }
    ensures { OnOk result (string_bytes out.new ≡ string_bytes out.old ++ after_spaces (number_words sig.now)) }
{
    let count = 64 * sig.width() as u32;
    for n in 0..count {
        if sig.has(n) {
            write!(out, " {n}")?;
        }
    }
    Ok(())
}

/// The line of a wide cone.
pub fn wide_face_line(alloc: Global, mask: u16, at: WideAt) -> Result<Reply, NoMemory>
    ensures status { IfOk result (λ a. a.status ≡ Status.Wide) }
    ensures text { IfOk result (λ a. a.text.items ≡ wide_face_text mask at) }
{
    let mut text = String::new(alloc);
    write!(text, "refused wide face {mask}")?;
    push_at(&mut text, &at)?;
    text.push_str("\n")?;
    Ok(Reply {
        status: Status::Wide,
        text: text.into_bytes(),
    })
}

/// The line of a wide signature.
pub fn wide_chamber_line(alloc: Global, sig: &Sig, at: &WideAt) -> Result<Reply, NoMemory>
    requires { length sig.now ≤ 1024 }
    ensures status { IfOk result (λ a. a.status ≡ Status.Wide) }
    ensures text { IfOk result (λ a. a.text.items ≡ wide_chamber_text sig.now at.now) }
{
    let mut text = String::new(alloc);
    text.push_str("refused wide chamber")?;
    push_numbers(&mut text, sig)?;
    push_at(&mut text, at)?;
    text.push_str("\n")?;
    Ok(Reply {
        status: Status::Wide,
        text: text.into_bytes(),
    })
}
