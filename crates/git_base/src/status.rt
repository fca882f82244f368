//! The statuses with which a run ends.
ghost use Rattle.std.specs.Prelude.{◌≡◌};

/// How a run of the program ended.
#[derive(Clone, Copy, Debug, PartialEq, Eq)]
pub enum Status {
    /// The run ended with its answer.
    Done,
    /// The checked text isn't the listing that its input defines.
    Invalid,
    /// The words of the command line aren't a command.
    Usage,
    /// The bytes that were read aren't a text of the program's formats, or are too many.
    BadInput,
    /// The ideal contains a monomial, so that the fan is empty.
    Monomial,
    /// A cone has a vector with too large an entry, or too many vectors.
    Wide,
    /// The weight of a chamber lies in a cone that doesn't hold the chamber, or the other way round.
    Crossed,
    /// More chambers are reached than the table may hold.
    Full,
    /// A computation of a basis took all of its steps.
    Steps,
    /// A computation of a basis met a degree past the limit of exponents.
    Degree,
    /// The table would take more memory than the program allows it.
    TableWide,
    /// A read failed.
    ReadFault,
    /// A write failed.
    WriteFault,
    /// There wasn't enough memory.
    NoMemory,
    /// A list would have more entries than the program writes.
    TooMany,
}

impl Status {
    ghost use Rattle.git_base.specs.Status.{code_of};

    /// The code with which the process ends, from 0 to 13 or 15.
    pub fn code(self) -> u8
        ensures { result ≡ code_of self }
    {
        match self {
            Status::Done => 0,
            Status::Invalid => 1,
            Status::Usage => 2,
            Status::BadInput => 3,
            Status::Monomial => 4,
            Status::Wide => 5,
            Status::Crossed => 6,
            Status::Full => 7,
            Status::Steps => 8,
            Status::Degree => 9,
            Status::TableWide => 10,
            Status::ReadFault => 11,
            Status::WriteFault => 12,
            Status::NoMemory => 13,
            Status::TooMany => 15,
        }
    }
}
