//! Calls of one function at each number below a count, in threads that claim one number after the other; and a crew of threads, each of
//! which works on what it is handed and hands it back.
#![tactic(auto)]

mod beside;
mod calls;
mod claims;
mod crew;
mod job;
mod plays;
mod post;
mod role;
mod slots;
mod waiting;

pub use beside::stay_beside;
pub use calls::call_each;
pub use crew::Crew;
pub use job::Job;
pub use post::{Mate, Post, Seats};
