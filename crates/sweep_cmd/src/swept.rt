//! What is kept of a solve with a link closed.

use gap_fraction::Frac;

/// The verdict, how many phases there were, how much of every amount the paths carry, and what bounds every routing.
#[derive(Clone, Copy)]
pub struct Swept {
    /// Whether the upper fraction is at most the lower one times 1 + gap.
    pub closed: bool,
    /// How many phases there were.
    pub phases: u32,
    /// The fraction of every amount that is carried.
    pub lower: Frac,
    /// The fraction that no routing exceeds.
    pub upper: Frac,
}
