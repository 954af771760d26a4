//! The rows of networks: what is kept of them, their names by number, and what a network hands out.
#![tactic(auto)]

mod accessors;
mod ends;
mod kept;
mod names;
mod net;
mod part;
mod refusal;
mod row;
mod with_demands;

pub use ends::Ends;
pub use kept::{LinkWords, NodeWords, Word};
pub use names::{names_of, number_of};
pub use net::RawNet;
pub use part::NetPart;
pub use refusal::ReadNetEnd;
pub use row::{DemandRow, LinkRow};
pub use sndlib_grammar::{NetKind, NetRefusal};
