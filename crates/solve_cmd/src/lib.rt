//! The commands that solve, print and draw networks: `solve`, `print`, `gen`, `trial`; and the canonical text of a network that was
//! read, written through a buffer of fixed size.
#![tactic(auto)]

mod canonical;
mod drawn;
mod entries;
mod printing;
mod solve;

pub use canonical::print_net;
pub use drawn::{gen_net, trial};
pub use printing::print;
pub use solve::solve_file;
