//! The commands for hop limits: `hops` and `checkhops`.
#![tactic(auto)]

mod asked;
mod checking;
mod judging;
mod laws;
mod solving;
mod writing;

pub use asked::asked_by;
pub use checking::checkhops;
pub use judging::judge_hops;
pub use laws::{hops_can_be_written, solved_hops_check};
pub use solving::{HopSolving, solve_hop_rows};
pub use writing::hops;
