//! The line of a wide weight.
ghost use Rattle.std.specs.Prelude.{◌≡◌, IfOk};
ghost use Rattle.git_base.specs.declared.status.Status.{Status};
ghost use Rattle.git_weight_replies.specs.WeightLines.{wide_weight_text};

use git_base::{NoMemory, Status};
use git_replies::{Reply, push_at};
use git_stages::WideAt;
use std::alloc::Global;
use std::fmt::Write;

/// The line of a weight whose cones are wide together, by its number from 1.
pub fn wide_weight_line(alloc: Global, number: usize, at: &WideAt) -> Result<Reply, NoMemory>
    ensures status { IfOk result (λ a. a.status ≡ Status.Wide) }
    ensures text { IfOk result (λ a. a.text.items ≡ wide_weight_text number at.now) }
{
    let mut text = String::new(alloc);
    write!(text, "refused wide weight {number}")?;
    push_at(&mut text, at)?;
    text.push_str("\n")?;
    Ok(Reply {
        status: Status::Wide,
        text: text.into_bytes(),
    })
}
