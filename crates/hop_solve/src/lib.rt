//! Runs within hop limits: one commodity after the other goes along a least of its allowed walks, phase after phase, with a
//! bound by layers after each, until the gap is met or the budget is spent.
#![tactic(auto)]

mod bounds;
mod finder;
mod given;
mod laws;
mod layering;
mod reached;
mod solving;
mod turns;
mod unlimited;

pub use laws::{hop_bound_is_first_of_the_least, hop_runs_are_valid};
pub use solving::solve_hops;
