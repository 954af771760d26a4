//! The command `batch`: many demand matrices on one network, each solved, matrices shared out among threads; the work of a batch, its
//! lines, its certificates and its status.
#![tactic(auto)]

mod asked;
mod batching;
mod page;
mod solving;
mod writing;

pub use asked::{BatchAsked, options_of};
pub use batching::{BatchFiles, batch};
pub use solving::solve_batch;
pub use writing::{batch_status, texts_of, write_texts};
