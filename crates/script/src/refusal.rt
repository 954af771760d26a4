//! Why a script is refused.

/// What is wrong with a script, in the order in which one word is judged.
#[derive(Clone, Copy, Debug, PartialEq, Eq)]
pub enum ScriptKind {
    /// No command where one must stand, a parenthesis, a word of more than 255 bytes, or the end inside a command.
    Syntax,
    /// The id of no link.
    UnknownLink,
    /// No number.
    BadNumber,
    /// No whole number of units.
    TooFine,
    /// The number, or the capacity after `add`, is more than 2^44 units.
    TooLarge,
    /// `sub` of more than the capacity as it is then.
    BelowZero,
}

/// What is wrong, and the line of the first token that has it.
#[derive(Clone, Copy, Debug, PartialEq, Eq)]
pub struct ScriptRefusal {
    /// The number of the line, from 1 on.
    pub line: u32,
    /// What is wrong there.
    pub kind: ScriptKind,
}

/// Why there is no script.
#[derive(Clone, Copy, Debug, PartialEq, Eq)]
pub enum ScriptEnd {
    /// The script is refused.
    Refused(ScriptRefusal),
    /// Memory ran out.
    Memory,
}
