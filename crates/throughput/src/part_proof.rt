//! A certificate of the greatest total, each demand carried in part.

use flow_paths::{Dual, Printed, Routing};

/// A threshold beside lengths and potentials.
#[derive(Drop)]
pub struct PartDual {
    /// The least price: what a unit of any commodity costs at least, by its gate and its distance together.
    pub threshold: u64,
    /// The lengths and potentials.
    pub dual: Dual,
}

/// What a certificate of a total says: a routing and a bound, and whether they lie within the gap, which is in millionths.
#[derive(Drop)]
pub struct PartProof {
    /// Whether it says `closed`. In a valid certificate: whether the upper total is at most the lower one times 1 + gap.
    pub closed: bool,
    /// The gap, in millionths.
    pub gap: u64,
    /// The routing.
    pub routing: Routing,
    /// The lower total. In a valid certificate the routing carries this total.
    pub lower: Printed,
    /// The upper total. In a valid certificate no routing carries a larger total.
    pub upper: Printed,
    /// The threshold, the lengths and the potentials that show the upper total.
    pub bound: PartDual,
}
