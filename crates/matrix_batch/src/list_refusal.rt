//! Refusals of lists.

/// Why a list is refused.
#[derive(Clone, Copy, Debug, PartialEq, Eq)]
pub enum ListKind {
    /// A word is too long, or no list begins with the tokens up to this one; or the list is cut short.
    Syntax,
    /// There are too many matrices, or too many demands in all.
    TooMany,
    /// Two matrices have one name, or two demands of one matrix one id.
    Duplicate,
    /// An end of a demand is no node of the network.
    UnknownNode,
    /// A word that has to be a number is none.
    BadNumber,
    /// A number is finer than a millionth.
    TooFine,
    /// A number, or the sum of a matrix, is over the limit.
    TooLarge,
    /// A matrix has no commodity.
    NoDemand,
}

/// A refusal, and the line where it stands.
#[derive(Clone, Copy, Debug, PartialEq, Eq)]
pub struct ListRefusal {
    /// The number of the line, from 1 on.
    pub line: u32,
    /// What is wrong there.
    pub kind: ListKind,
}
