//! Why bytes are not read as weights.
ghost use Rattle.std.specs.Prelude.{◌≡◌};
ghost use Rattle.git_weights.specs.Faults.{weights_fault};

use git_strictlines::ReadFault;
use git_text::{BadKind, InputFault};

/// Why bytes are not read as weights.
#[derive(Clone, Copy, Debug, PartialEq, Eq)]
pub enum WeightsFault {
    /// The first fault of the bytes, read from left to right. Lines and columns count from 1, columns in bytes.
    Bad {
        /// The line.
        line: u32,
        /// The column.
        column: u32,
        /// What is wrong there.
        kind: BadKind,
    },
    /// Memory ran out.
    NoMemory,
}

impl From<ReadFault> for WeightsFault {
    ghost from_gives = { λ f e. e ≡ weights_fault f };

    fn from(fault: ReadFault) -> WeightsFault {
        match fault {
            ReadFault::Form(form) => match InputFault::from(form) {
                InputFault::Bad { line, column, kind } => WeightsFault::Bad { line, column, kind },
                InputFault::NoMemory => WeightsFault::NoMemory,
            },
            ReadFault::NoMemory => WeightsFault::NoMemory,
        }
    }
}
