//! Bytes, lines, tokens with their columns, and integers: what they are, and the code that reads them.
//!
//! Every text of the program is read with these. A reader is a cursor over borrowed bytes: it takes no memory,
//! reads each byte once, and gives the next item or the first fault with its place.
#![tactic(auto)]

mod fault;
mod fields;
mod laws;
mod lines;
mod numbers;
mod parts;
mod steps;
mod tokens;

pub use fault::{FormFault, FormKind};
pub use fields::Fields;
pub use laws::{
    carriage_return_ends_the_line, fields_are_read_back, fields_make_the_line,
    integers_are_read_back, integers_are_read_back_once, integers_have_one_spelling,
    line_feed_ends_the_line, lines_are_read_back, lines_make_the_text,
    tokens_stand_at_their_columns, words_are_read_back, words_hold_no_space, words_lose_nothing,
};
pub use lines::{Line, Lines};
pub use numbers::{are_digits, integer_of, integer_once_of, natural_of, natural_once_of, value_of};
pub use parts::{Part, Parts, Separator};
pub use tokens::{Cursor, Joining, Token};
