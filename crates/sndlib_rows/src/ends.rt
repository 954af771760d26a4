//! The ends of a row.

/// The numbers of the two ends of a link or a demand.
#[derive(Clone, Copy, Debug)]
pub struct Ends {
    /// The number of the source among the nodes.
    pub source: u16,
    /// The number of the target among the nodes.
    pub target: u16,
}
