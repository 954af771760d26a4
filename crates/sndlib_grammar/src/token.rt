//! A token, and the refusal of a long word.

/// What a token is: a parenthesis, or a word.
#[derive(Clone, Copy, Debug, PartialEq, Eq)]
pub enum TokenKind {
    /// `(`.
    LeftParen,
    /// `)`.
    RightParen,
    /// A word.
    Word,
}

/// A token of a text: `text` is the slice of the text that begins at byte `at`, and `line` is the line of that byte, counted from 1.
#[derive(Clone, Copy, Debug)]
pub struct Token<'a> {
    /// What it is.
    pub kind: TokenKind,
    /// Its bytes.
    pub text: &'a [u8],
    /// The number of its line, from 1 on.
    pub line: u32,
    /// The place of its first byte in the text, from 0 on.
    pub at: usize,
}

/// The next token is a word of more than `MAX_WORD_BYTES` bytes, and begins in this line.
#[derive(Clone, Copy, Debug, PartialEq, Eq)]
pub struct LongWord {
    /// The number of its line, from 1 on.
    pub line: u32,
}
