//! Phases: workers route every commodity once, over shared loads.
//! The work of one worker of a phase: it claims groups, reads the loads, searches, and adds along least paths.
#![tactic(auto)]

mod hand;
mod input;
mod phases;
mod room;
mod route_buffer;
mod routes;
mod steps;
mod turns;
mod watch;
mod worker;

pub use hand::Hand;
pub use input::{PhaseInput, Shared};
pub use phases::{finish, phase};
pub use room::Room;
pub use routes::Routes;
pub use turns::{hand_out, take_turn};
pub use watch::Watch;
pub use worker::{Worked, work};
