//! Cuts of a network, and the best bound that the duals of certificates and their cuts give.
#![tactic(auto)]

mod best;
mod choice;
mod cuts;
mod fronts;
mod laws;
mod made;
mod own;
mod sums;
mod tighten;

pub use best::best_dual;
pub use laws::{
    best_is_not_above, cut_dual_is_its_value, cut_duals_are_valid, cuts_bound_routings,
    least_is_first, tightened_is_best, tightened_is_first, tightened_is_small, tightened_is_unique,
    tightened_routing_is_first, tightened_stays,
};
pub use tighten::tightened;
