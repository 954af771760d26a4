//! From a valid certificate and a script's text to what the script shows.
#![tactic(auto)]

mod laws;
mod scripting;

pub use laws::{certificate_lines_are_bounds, lines_are_bounds};
pub use scripting::{Scripted, read_script, write_shown};
