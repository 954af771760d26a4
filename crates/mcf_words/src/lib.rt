//! The words of the command line, and what they ask for.
//! Laws of the words of the command line, over their definitions: which words spell which requests.
#![tactic(auto)]

mod commands;
mod laws;
mod parse;
mod read;
mod request;
mod values;

pub use laws::{requests_are_spelled, requests_have_words, usage_is_no_spelling, words_spell_one};
pub use read::read_words;
pub use request::{Command, Names, Request, WordsEnd};
