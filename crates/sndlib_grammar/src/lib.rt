//! The grammar of network texts: what tokens spell which entries, the modes that a reader goes through, and the rows or the first refusal of a text.
//! Tokens of a network text: parentheses and words, without blanks and comments.
//! The grammar of numbers in network texts: digits, a point, an exponent. The reader refuses words that are none, and scaling reads the value of those that are.
//! The canonical text of a network's rows, and what reading it gives.
#![tactic(auto)]

mod bytes;
mod laws;
mod mode;
mod parse;
mod refusal;
mod text_laws;
mod token;
mod tokens;

pub use bytes::end_line;
pub use laws::{
    answer_is_of_the_grammar, answer_is_unique, entries_are_unique, rows_are_sound,
    words_are_slices,
};
pub use mode::{Mode, Part, closed, named, opened};
pub use parse::{NumberParts, is_number, number_parts};
pub use refusal::{NetKind, NetRefusal};
pub use text_laws::{canonical_text_reads_back, rows_of_texts_are_printable};
pub use token::{LongWord, Token, TokenKind};
pub use tokens::Tokens;
