//! Why bytes are not read as an input.
ghost use Rattle.std.specs.Prelude.{◌≡◌};
ghost use Rattle.git_text.specs.declared.fault.InputFault.TheVariants.{NoMemory as no_memory};
ghost use Rattle.git_text.specs.Faults.{kind_of, form_bad, polynomial_bad};

use git_lines::{FormFault, FormKind};
use git_mono::Mono;
use git_polytext::PolynomialFault;
use std::alloc::{AllocError, AllocFailed};

/// What is wrong with an input.
#[derive(Clone, Copy, Debug, PartialEq, Eq)]
pub enum BadKind {
    /// The first line is not `gitfan 1`.
    Header,
    /// A token that has to be an integer is none.
    Number,
    /// A token too many or too few.
    Count,
    /// A number outside its limits, an exponent above 64, or a term too many.
    Range,
    /// A needed word, or a byte that may follow, does not come.
    Syntax,
    /// A variable that there is not.
    Variable,
    /// Two monomials of a generator have different degrees.
    Homogeneous {
        /// The generator's number, from 1.
        generator: u32,
        /// The lead's monomial.
        first: Mono,
        /// The greatest monomial of another degree.
        second: Mono,
    },
    /// Fewer columns of the matrix are independent than there are rows.
    Rank,
    /// Natural numbers, not all 0, make the columns of the matrix sum to 0.
    Pointed,
    /// Bytes follow the last line.
    Trailing,
    /// A needed line is not there.
    Truncated,
    /// More bytes came than an input may have. The reader does not answer this.
    TooLong,
}

/// Why bytes are not read as an input.
#[derive(Clone, Copy, Debug, PartialEq, Eq)]
pub enum InputFault {
    /// The first fault of the bytes, read from left to right. Lines and columns count from 1, columns in bytes.
    Bad {
        /// The line.
        line: u32,
        /// The column.
        column: u32,
        /// What is wrong there.
        kind: BadKind,
    },
    /// Memory ran out.
    NoMemory,
}

/// The kind of a fault of form.
fn kind_of_form(kind: FormKind) -> BadKind
    ensures { result ≡ kind_of kind }
{
    match kind {
        FormKind::Header => BadKind::Header,
        FormKind::Number => BadKind::Number,
        FormKind::Count => BadKind::Count,
        FormKind::Range => BadKind::Range,
        FormKind::Syntax => BadKind::Syntax,
        FormKind::Truncated => BadKind::Truncated,
        FormKind::Trailing => BadKind::Trailing,
    }
}

impl From<FormFault> for InputFault {
    ghost from_gives = { λ f e. e ≡ form_bad f };

    fn from(fault: FormFault) -> InputFault {
        InputFault::Bad {
            line: fault.line,
            column: fault.column,
            kind: kind_of_form(fault.kind),
        }
    }
}

impl From<PolynomialFault> for InputFault {
    ghost from_gives = { λ f e. e ≡ polynomial_bad f };

    fn from(fault: PolynomialFault) -> InputFault {
        match fault {
            PolynomialFault::Form(form) => InputFault::from(form),
            PolynomialFault::Variable { line, column } => InputFault::Bad {
                line,
                column,
                kind: BadKind::Variable,
            },
            PolynomialFault::NoMemory => InputFault::NoMemory,
        }
    }
}

impl From<AllocError> for InputFault {
    ghost from_gives = { λ _ e. e ≡ no_memory };

    fn from(_error: AllocError) -> InputFault {
        InputFault::NoMemory
    }
}

impl<T: Drop> From<AllocFailed<T>> for InputFault {
    ghost from_gives = { λ _ e. e ≡ no_memory };

    fn from(_error: AllocFailed<T>) -> InputFault {
        InputFault::NoMemory
    }
}
