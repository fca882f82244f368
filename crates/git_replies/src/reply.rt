//! What a run answers before it is written.
use git_base::{NoMemory, Status};

/// A text to write, and the status with which the run ends once it is written.
#[derive(Drop)]
pub struct Reply {
    pub status: Status,
    pub text: Vec<u8>,
}

/// Why there is no answer.
#[derive(Clone, Copy, Debug)]
pub enum Unanswered {
    /// A read failed.
    ReadFault,
    /// Memory ran out.
    NoMemory,
}

impl From<NoMemory> for Unanswered {
    ghost use Rattle.std.specs.Prelude.{◌≡◌};
    ghost use Rattle.git_replies.specs.declared.reply.Unanswered.{Unanswered};

    ghost from_gives = { λ _ e. e ≡ Unanswered.NoMemory };

    fn from(_e: NoMemory) -> Unanswered {
        Unanswered::NoMemory
    }
}
