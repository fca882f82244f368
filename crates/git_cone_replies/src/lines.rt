//! The lines of refusals.
ghost use Rattle.std.specs.Prelude.{◌≡◌, IfOk};
ghost use Rattle.git_base.specs.declared.status.Status.{Status};
ghost use Rattle.git_cone_replies.specs.ConeLines.{many_text, wide_pair_text};

use git_allcones::FACES;
use git_base::{NoMemory, Status};
use git_replies::{Reply, push_at};
use git_stages::WideAt;
use std::alloc::Global;
use std::fmt::Write;

/// The line of faces that are too many.
pub fn many_line(alloc: Global) -> Result<Reply, NoMemory>
    ensures status { IfOk result (λ a. a.status ≡ Status.TooMany) }
    ensures text { IfOk result (λ a. a.text.items ≡ many_text) }
{
    let mut text = String::new(alloc);
    write!(text, "refused cones {FACES}\n")?;
    Ok(Reply {
        status: Status::TooMany,
        text: text.into_bytes(),
    })
}

/// The line of two chambers whose facets together are wide.
pub fn wide_pair_line(
    alloc: Global,
    first: u32,
    second: u32,
    at: &WideAt,
) -> Result<Reply, NoMemory>
    ensures status { IfOk result (λ a. a.status ≡ Status.Wide) }
    ensures text { IfOk result (λ a. a.text.items ≡ wide_pair_text first second at.now) }
{
    let mut text = String::new(alloc);
    write!(text, "refused wide pair {first} {second}")?;
    push_at(&mut text, at)?;
    text.push_str("\n")?;
    Ok(Reply {
        status: Status::Wide,
        text: text.into_bytes(),
    })
}
