//! Laws of the definitions, each the contract of an empty function.
ghost use Rattle.git_polytext.specs.Laws.{LinesReadAreLines, LinesAreRead, LinesHaveOneValue, FaultsLieInTheLine, LinesAreGraded, PolynomialsAreReadBack, PolynomialTextsArePlain};

/// The value that is read of a line is that of the grammar.
pub fn lines_read_are_lines()
    ensures { LinesReadAreLines }
{}

/// The value that a line has in the grammar is read of it, so a line without one has a first fault.
pub fn lines_are_read()
    ensures { LinesAreRead }
{}

/// A line has one value at most.
pub fn lines_have_one_value()
    ensures { LinesHaveOneValue }
{}

/// The faults of a line lie in it or one past its end, and want of memory is none of them.
pub fn faults_lie_in_the_line()
    ensures { FaultsLieInTheLine }
{}

/// The monomials of a line are ones in its variables, with exponents of at most 64.
pub fn lines_are_graded()
    ensures { LinesAreGraded }
{}

/// A polynomial of at most two hundred such monomials is read back from its text.
pub fn polynomials_are_read_back()
    ensures { PolynomialsAreReadBack }
{}

/// The text of a polynomial has no space, no line feed and no carriage return.
pub fn polynomial_texts_are_plain()
    ensures { PolynomialTextsArePlain }
{}
