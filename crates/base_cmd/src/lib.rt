//! What every command stands on: the files that it reads, one after the other, and the answer that it writes.
#![tactic(auto)]

mod ended;
mod files;
mod outcome;
mod saying;
mod tell_judged;
mod telling;

pub use ended::{Ended, Found, end_of};
pub use files::{certificate_in, file_text, net_in, net_rows};
pub use outcome::{FileKind, Outcome};
pub use saying::say;
pub use tell_judged::{tell_valid, verdict_status, verdict_word};
pub use telling::tell;
