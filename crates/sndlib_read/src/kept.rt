//! What is kept of the entries of a text: words with the lines that a refusal may name.

use sndlib_rows::{LinkWords, NodeWords, Word};

/// A demand.
#[derive(Clone, Copy, Debug)]
pub struct DemandWords<'a> {
    /// Its id.
    pub id: Word<'a>,
    /// The name of its source.
    pub source: Word<'a>,
    /// The name of its target.
    pub target: Word<'a>,
    /// Its routing unit.
    pub unit: Word<'a>,
    /// Its demand value.
    pub value: Word<'a>,
    /// Its longest path: a number, or `UNLIMITED`.
    pub longest: Word<'a>,
}

/// The rows of a text, in each section at most one more than there may be.
#[derive(Debug, Drop)]
pub struct Kept<'a> {
    /// The nodes, in their order.
    pub nodes: Vec<NodeWords<'a>>,
    /// The links, in their order.
    pub links: Vec<LinkWords<'a>>,
    /// The demands, in their order.
    pub demands: Vec<DemandWords<'a>>,
    /// How many sections were skipped.
    pub skipped: u32,
}
