//! What a valid certificate is still worth with each single link closed, without a new solution.
#![tactic(auto)]

mod laws;
mod lines;
mod slots;
mod sweeping;

pub use laws::{closed_is_bounded, closed_is_feasible, evaluation_is_closing};
pub use lines::write_sweep;
pub use sweeping::sweep_plan;
