//! Where reading stands in a list, and where it stands after one more token.

ghost use Rattle.std.specs.Prelude.{◌≡◌};
ghost use Rattle.matrix_batch.specs.Reading.{after as after_lem};

use sndlib_grammar::TokenKind;

/// Where reading stands.
#[derive(Clone, Copy, Debug)]
pub enum Mode {
    /// Where a matrix may begin, or the list end.
    Between,
    /// Behind the name of a matrix, where its parenthesis opens.
    Opening,
    /// Where a demand may begin, or the matrix end.
    Inside,
    /// Behind the id of a demand, where the parenthesis of its ends opens.
    Ends,
    /// Where the source stands.
    Source,
    /// Where the target stands.
    Target,
    /// Where the parenthesis of the ends closes.
    EndsClose,
    /// Where the routing unit stands.
    Unit,
    /// Where the demand value stands.
    Value,
    /// Where the longest path stands.
    Longest,
}

/// Behind a token of that kind; `None` where it may not stand.
pub fn after(mode: Mode, kind: TokenKind) -> Option<Mode>
    ensures { result ≡ after_lem mode kind }
{
    match (mode, kind) {
        (Mode::Between, TokenKind::Word) => Some(Mode::Opening),
        (Mode::Opening, TokenKind::LeftParen) => Some(Mode::Inside),
        (Mode::Inside, TokenKind::RightParen) => Some(Mode::Between),
        (Mode::Inside, TokenKind::Word) => Some(Mode::Ends),
        (Mode::Ends, TokenKind::LeftParen) => Some(Mode::Source),
        (Mode::Source, TokenKind::Word) => Some(Mode::Target),
        (Mode::Target, TokenKind::Word) => Some(Mode::EndsClose),
        (Mode::EndsClose, TokenKind::RightParen) => Some(Mode::Unit),
        (Mode::Unit, TokenKind::Word) => Some(Mode::Value),
        (Mode::Value, TokenKind::Word) => Some(Mode::Longest),
        (Mode::Longest, TokenKind::Word) => Some(Mode::Inside),
        _ => None,
    }
}
