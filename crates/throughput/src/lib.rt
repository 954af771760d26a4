//! The greatest total: whether a certificate of a total is valid; and the run for it, in which each commodity has its turn, phase
//! after phase, under lengths of cells and gates.
#![tactic(auto)]

mod adding;
mod amounts;
mod bound;
mod check;
mod fractions;
mod laws;
mod loaded;
mod measured;
mod part_proof;
mod phases;
mod prepared;
mod reached;
mod routing;
mod solving;
mod steps;
mod turns;

pub use amounts::total;
pub use bound::upper_num;
pub use check::check_part;
pub use fractions::is_within;
pub use laws::{
    threshold_bounds_totals, throughput_runs_are_valid, total_bound_is_first_of_the_least,
    valid_parts_certify,
};
pub use part_proof::{PartDual, PartProof};
pub use solving::solve_parts;
