//! What is shown.

use gap_fraction::Frac;

/// How much of every amount a routing carries, and what bounds every routing.
#[derive(Clone, Copy)]
pub struct Bounds {
    /// The fraction of every amount that the routing carries.
    pub lower: Frac,
    /// The fraction that no routing exceeds.
    pub upper: Frac,
}
