//! The command line of `mcf`: what is asked, answered on standard output.
#![tactic(auto)]

mod run_words;

pub use base_cmd::{Ended, Found};
pub use run_words::run;
