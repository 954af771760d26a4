//! Rows as they are handed out: words are slices of the text, nodes are numbers.

/// A link: its id, the numbers of its ends, its pre-installed capacity, its costs (of what is installed, of routing, of the setup), and the line of its id.
#[derive(Clone, Copy, Debug)]
pub struct LinkRow<'a> {
    /// Its id.
    pub id: &'a [u8],
    /// The number of its source among the nodes.
    pub source: u16,
    /// The number of its target among the nodes.
    pub target: u16,
    /// Its pre-installed capacity, as it is written.
    pub installed: &'a [u8],
    /// Its costs, as they are written: of what is installed, of routing, of the setup.
    pub costs: [&'a [u8]; 3],
    /// The number of the line of its id, from 1 on.
    pub line: u32,
}

/// A demand: its id, the numbers of its ends, its routing unit, demand value and longest path, and the line of its id.
#[derive(Clone, Copy, Debug)]
pub struct DemandRow<'a> {
    /// Its id.
    pub id: &'a [u8],
    /// The number of its source among the nodes.
    pub source: u16,
    /// The number of its target among the nodes.
    pub target: u16,
    /// Its routing unit, as it is written.
    pub unit: &'a [u8],
    /// Its demand value, as it is written.
    pub value: &'a [u8],
    /// Its longest path, as it is written: a number, or `UNLIMITED`.
    pub longest: &'a [u8],
    /// The number of the line of its id, from 1 on.
    pub line: u32,
}
