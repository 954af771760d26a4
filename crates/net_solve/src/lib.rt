//! From the rows of a network and what is asked to a solved network, or why there is none.
//! The texts of what is solved: the solver's own certificate can be written, is read back, and is
//! judged valid.
#![tactic(auto)]

mod asked;
mod laws;
mod solving;
mod tally;
mod text_laws;

pub use asked::{Asked, turn_options};
pub use laws::{carried_is_of_phases, routes_are_of_phases, solves_check};
pub use solving::{Solving, solve_rows};
pub use tally::{carried_amount, route_count, total_amount};
pub use text_laws::{solved_can_be_written, solved_is_judged_valid, solved_reads_back};
