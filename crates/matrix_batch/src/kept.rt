//! What is kept of the matrices of a text: words with their lines.

/// A word of the text, and its line.
#[derive(Clone, Copy, Debug)]
pub struct Word<'a> {
    /// The word.
    pub text: &'a [u8],
    /// The number of its line, from 1 on.
    pub line: u32,
}

/// A demand.
#[derive(Clone, Copy, Debug)]
pub struct DemandWords<'a> {
    /// Its id.
    pub id: Word<'a>,
    /// The name of its source.
    pub source: Word<'a>,
    /// The name of its target.
    pub target: Word<'a>,
    /// Its routing unit.
    pub unit: Word<'a>,
    /// Its demand value.
    pub value: Word<'a>,
    /// Its longest path: a number, or `UNLIMITED`.
    pub longest: Word<'a>,
}

/// A matrix: its name, and its demands.
#[derive(Debug, Drop)]
pub struct MatrixWords<'a> {
    /// Its name.
    pub name: Word<'a>,
    /// Its demands, in their order.
    pub demands: Vec<DemandWords<'a>>,
}
