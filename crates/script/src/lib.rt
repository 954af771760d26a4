//! Scripts: commands that change the capacities of links and show the bounds, read from a text.
//! Laws of scripts, over their definitions.
#![tactic(auto)]

mod laws;
mod read;
mod reading;
mod refusal;
mod step;
mod word;

pub use laws::{commands_are_read, read_are_commands};
pub use refusal::{ScriptEnd, ScriptKind, ScriptRefusal};
pub use step::{Script, Step};
