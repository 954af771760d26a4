//! What is kept of nodes and links: words with the lines that a refusal may name.

/// A word of the text, and its line.
#[derive(Clone, Copy, Debug)]
pub struct Word<'a> {
    /// The word.
    pub text: &'a [u8],
    /// The number of its line, from 1 on.
    pub line: u32,
}

/// A node: its id, and the words of its place, where there is one.
#[derive(Debug, Drop)]
pub struct NodeWords<'a> {
    /// Its id.
    pub id: Word<'a>,
    /// The words of its place.
    pub place: Option<Vec<&'a [u8]>>,
}

/// A link. Its modules have a capacity and a cost in turn, and `bad` is the line of the first capacity among them that is no number.
#[derive(Debug, Drop)]
pub struct LinkWords<'a> {
    /// Its id.
    pub id: Word<'a>,
    /// The name of its source.
    pub source: Word<'a>,
    /// The name of its target.
    pub target: Word<'a>,
    /// Its pre-installed capacity.
    pub installed: Word<'a>,
    /// The cost of that.
    pub installed_cost: Word<'a>,
    /// Its routing cost.
    pub routing_cost: Word<'a>,
    /// Its setup cost.
    pub setup_cost: Word<'a>,
    /// The capacity and the cost of each module, in turn.
    pub modules: Vec<&'a [u8]>,
    /// The line of the first capacity of a module that is no number.
    pub bad: Option<u32>,
}
