//! What a valid certificate is worth under other capacities, without a new solution.
#![tactic(auto)]

mod bounds;
mod plan;
mod ratio;
mod run;
mod tree;

pub use bounds::Bounds;
pub use plan::Plan;
pub use run::{run_script, value_down, value_up};
