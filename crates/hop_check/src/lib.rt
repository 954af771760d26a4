//! The limit of hops of each commodity, from the longest path of its demand; and whether a certificate with hop limits is valid for a
//! network: its paths keep the limits, and its layers bound every walk that does.
#![tactic(auto)]

mod asked;
mod check;
mod distance;
mod hop_proof;
mod laws;
mod layers;
mod limits;
mod places;
mod rise;
mod rounded;
mod rows;
mod within;

pub use asked::{layer_counts, unlimited_counts};
pub use check::check_hops;
pub use hop_proof::HopProof;
pub use laws::{distances_bound_within, layers_bound_routings, valid_hops_certify};
pub use layers::Layers;
pub use limits::hop_limits;
pub use rows::hop_weighted_distance;
pub use within::are_within;
