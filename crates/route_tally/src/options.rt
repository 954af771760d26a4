//! The options of a run that routes one commodity after the other.

/// The gap in millionths, the phase budget, and the step of the lengths.
#[derive(Clone, Copy, Debug, PartialEq, Eq)]
pub struct RunOptions {
    /// The gap, in millionths.
    pub gap: u64,
    /// How many phases there are at most.
    pub phases: u32,
    /// How sharply lengths rise with loads, from 1 to 2^20.
    pub step: u32,
}
