//! What a run of the solver is, with the setting of each phase, and what holds of its certificate.
#![tactic(auto)]

mod laws;
mod options;
mod settings;
mod small;

pub use laws::{
    duals_show_their_bounds, kept_bound_is_first_of_the_least, least_walks_are_short,
    phases_have_paths, rows_load_what_phases_load, run_keeps_the_gap, runs_are_solved,
    solved_is_certified,
};
pub use options::{Entry, SolveOptions};
pub use settings::{setting_after_first, setting_at_first};
pub use small::{
    a_cut_is_solved, a_phase_is_solved, small_has_a_fullest_cell, small_has_groups,
    small_phases_load,
};
