//! The commands for the greatest total: `throughput` and `checkthroughput`.
#![tactic(auto)]

mod asked;
mod checking;
mod judging;
mod laws;
mod solving;
mod writing;

pub use asked::asked_by;
pub use checking::checkthroughput;
pub use judging::judge_part;
pub use laws::{parts_can_be_written, solved_parts_check};
pub use solving::{PartSolving, solve_part_rows};
pub use writing::throughput_of;
