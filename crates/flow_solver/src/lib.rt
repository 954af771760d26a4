//! The solver: phase after phase, until the gap is met or the budget is spent.
//! The paths of all phases so far: path rows, and who routed each commodity along which of them.
#![tactic(auto)]

mod bounding;
mod entries;
mod filling;
mod following;
mod hands;
mod history;
mod leading;
mod noted;
mod noting;
mod pace;
mod parts;
mod places;
mod prepared;
mod reached;
mod search;
mod share;
mod solved;
mod solving;
mod turn;

pub use entries::Entries;
pub use history::{OrderedHistory, PathHistory};
pub use solved::Solved;
pub use solving::{solve, solve_in};
