//! Laws of the definitions, each the contract of an empty function.
ghost use Rattle.git_lines.specs.Laws.{LinesMakeTheText, LinesAreReadBack, CarriageReturnEndsTheLine, LineFeedEndsTheLine, WordsAreReadBack, WordsHoldNoSpace, WordsLoseNothing, TokensStandAtTheirColumns, IntegersAreReadBack, IntegersAreReadBackOnce, IntegersHaveOneSpelling, FieldsMakeTheLine, FieldsAreReadBack};

/// A text's lines joined are the text.
pub fn lines_make_the_text()
    ensures { LinesMakeTheText }
{}

/// Lines that are written each with a line feed are read back.
pub fn lines_are_read_back()
    ensures { LinesAreReadBack }
{}

/// A carriage return with a line feed belongs to the line's end.
pub fn carriage_return_ends_the_line()
    ensures { CarriageReturnEndsTheLine }
{}

/// A line feed does, and nothing before it but a carriage return.
pub fn line_feed_ends_the_line()
    ensures { LineFeedEndsTheLine }
{}

/// Words that are printed with one space between each two are read back.
pub fn words_are_read_back()
    ensures { WordsAreReadBack }
{}

/// Each word of a line has bytes, and none is a space.
pub fn words_hold_no_space()
    ensures { WordsHoldNoSpace }
{}

/// The words of a line have all its bytes that are no spaces, in order.
pub fn words_lose_nothing()
    ensures { WordsLoseNothing }
{}

/// Each token stands in its line at its column.
pub fn tokens_stand_at_their_columns()
    ensures { TokensStandAtTheirColumns }
{}

/// An integer of at most eighteen digits is read back from its decimal spelling.
pub fn integers_are_read_back()
    ensures { IntegersAreReadBack }
{}

/// So it is where one spelling alone is allowed.
pub fn integers_are_read_back_once()
    ensures { IntegersAreReadBackOnce }
{}

/// The one spelling of an integer is its decimal spelling.
pub fn integers_have_one_spelling()
    ensures { IntegersHaveOneSpelling }
{}

/// A line is its fields with one space between each two.
pub fn fields_make_the_line()
    ensures { FieldsMakeTheLine }
{}

/// One or more words that are printed with one space between each two are the fields of the line.
pub fn fields_are_read_back()
    ensures { FieldsAreReadBack }
{}
