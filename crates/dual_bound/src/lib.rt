//! Bounds by duality: the dual of lengths with least lengths as potentials, and that of a cut.
#![tactic(auto)]

mod bounds;
mod dual;
mod rows;
mod team;
mod value;

pub use bounds::{Bounded, bound, cut_bound, lesser_in, lesser_of_rows, refill_rows};
pub use dual::{are_filled, assembled};
pub use rows::{Row, Target, blank_row, fill_rows, mark_all, source_rows};
pub use team::Team;
