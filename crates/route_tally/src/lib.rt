//! Runs that route one commodity after the other: their options, and their tally, one row for each commodity and path that some turn
//! has, with all that was routed along it.
#![tactic(auto)]

mod laws;
mod options;
mod tally;

pub use laws::{rows_are_their_turns, tally_is_its_turns, tally_is_unique, weights_are_counted};
pub use options::RunOptions;
pub use tally::Tally;
