//! What is wrong with the form of a text, and where.

/// What is wrong with the form of a text.
#[derive(Clone, Copy, Debug, PartialEq, Eq)]
pub enum FormKind {
    /// The first line does not name the format.
    Header,
    /// A token that has to be a number is none.
    Number,
    /// A token too many or too few.
    Count,
    /// A number outside its limits.
    Range,
    /// A needed word, or a byte that may follow, does not come.
    Syntax,
    /// A needed line is not there.
    Truncated,
    /// Bytes follow the last line.
    Trailing,
}

/// A fault of form and its place: a line and a column, both from 1, columns in bytes.
#[derive(Clone, Copy, Debug, PartialEq, Eq)]
pub struct FormFault {
    pub line: u32,
    pub column: u32,
    pub kind: FormKind,
}
