//! Network texts in SNDlib's native format: read token by token in one pass, with every refusal exact.
#![tactic(auto)]

mod ends;
mod faults;
mod judge;
mod kept;
mod names;
mod scan;
mod sofar;
mod text;

pub use judge::read_net;
pub use sndlib_rows::{RawNet, ReadNetEnd};
