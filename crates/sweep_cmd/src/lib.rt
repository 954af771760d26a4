//! The commands that close each single link: `sweep`, of a certificate, and `sweepsolve`, whose solves are shared out among threads.
#![tactic(auto)]

mod asked;
mod closing;
mod ids;
mod lines;
mod solving;
mod sweeping;
mod sweepsolving;
mod swept;

pub use asked::{SweepAsked, SweepOptions, options_of};
pub use lines::{swept_status, write_swept};
pub use solving::sweep_solve;
pub use sweeping::sweep;
pub use sweepsolving::sweepsolve;
pub use swept::Swept;
