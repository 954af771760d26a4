//! Refusals of network texts.

/// Why a network text is refused.
#[derive(Clone, Copy, Debug, PartialEq, Eq)]
pub enum NetKind {
    /// `N1`: the text does not begin with the header.
    NoHeader,
    /// `N2`: a word has too many bytes.
    LongWord,
    /// `N3`: no network begins with the tokens up to this one.
    Syntax,
    /// `N4`: there are too many nodes, links or demands.
    TooMany,
    /// `N5`: an id stands twice.
    Duplicate,
    /// `N6`: an end is no node.
    UnknownNode,
    /// `N7`: a word that has to be a number is none.
    BadNumber,
    /// `N8`: a number is finer than a millionth.
    TooFine,
    /// `N9`: a number, or the sum of all amounts, is over the limit.
    TooLarge,
    /// `N10`: no demand is left.
    NoDemand,
    /// The longest path of a commodity is a limit, and allows more links than the search by layers takes.
    HopTooFar,
}

/// A refusal, and the line where it stands.
#[derive(Clone, Copy, Debug, PartialEq, Eq)]
pub struct NetRefusal {
    /// The number of the line, from 1 on.
    pub line: u32,
    /// What is wrong there.
    pub kind: NetKind,
}
