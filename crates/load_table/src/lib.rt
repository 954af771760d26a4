//! The words that workers share in a phase, over a table of atomic words: a claim, a read and an add are an event of the core each, and
//! no call waits. One worker alone has the words to itself.
#![tactic(auto)]

mod loads;
mod places;
mod rule;
mod view;

pub use loads::{Loads, Pass};
pub use view::{Hand, Known, View};
