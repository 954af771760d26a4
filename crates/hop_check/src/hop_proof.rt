//! A certificate with hop limits.

use crate::layers::Layers;
use flow_paths::Proof;

/// A certificate, and the layers that bound walks within their limits.
#[derive(Drop)]
pub struct HopProof {
    /// The routing, the bound, and whether they lie within the gap.
    pub proof: Proof,
    /// The layers of each source of commodities with a limit.
    pub layers: Layers,
}
