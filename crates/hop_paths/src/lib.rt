//! Limits of hops: the least walks within a number of cells, and layers of numbers that bound
//! every such walk.
#![tactic(auto)]

mod laws;
mod scratch;
mod search;

pub use laws::layers_bound_walks;
pub use scratch::HopScratch;
