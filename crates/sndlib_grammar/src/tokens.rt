//! The reader of tokens.

ghost use Rattle.std.specs.Prelude.{◌≡◌, ◌+◌, ◌<◌, ◌≤◌, ◌^◌, length, drop, IfOk, IfSome};
ghost use Rattle.std.specs.List.{slice_range};
ghost use Rattle.sndlib_grammar.specs.Tokens.{lexemes, IsStart, TokenAt};
ghost use Rattle.sndlib_grammar.specs.Lexing.{TakesNext};

use crate::bytes::{next_start, word_end};
use crate::token::{LongWord, Token, TokenKind};
use mcf_limits::MAX_WORD_BYTES;
use std::marker::Model;

/// The tokens of a text from a place on, one by one.
#[derive(Drop)]
pub struct Tokens<'a> {
    text: &'a [u8],
    at: usize,
    line: u32,
}

impl<'a> Model for Tokens<'a> {
    ghost use Rattle.std.specs.Prelude.{◌≤◌, ◌<◌, ◌+◌, ◌^◌, length, drop};
    ghost use Rattle.sndlib_grammar.specs.Tokens.{Unread, lexemes};

    ghost Value = { Unread };

    ghost view = { λ t. record { text = t.text.now; tokens = lexemes 0 (drop t.at t.text.now) t.at t.line } };

    ghost invariant = { λ t. (t.at ≤ length t.text.now) × (t.line + length t.text.now < 2 ^ 32 + t.at) };
}

// The token that begins here.
fn token_at(text: &[u8], at: usize, line: u32) -> Result<Token<'_>, LongWord>
    requires place { at < length text.now }
    requires start { IsStart text.now at }
    ensures { TokenAt text.now at line result }
{
    let b = text[at];
    if b == b'(' {
        return Ok(Token {
            kind: TokenKind::LeftParen,
            text: &text[at..at + 1],
            line,
            at,
        });
    }
    if b == b')' {
        return Ok(Token {
            kind: TokenKind::RightParen,
            text: &text[at..at + 1],
            line,
            at,
        });
    }
    let end = word_end(text, at + 1);
    if end - at > MAX_WORD_BYTES {
        return Err(LongWord { line });
    }
    Ok(Token {
        kind: TokenKind::Word,
        text: &text[at..end],
        line,
        at,
    })
}

impl<'a> Tokens<'a> {
    /// The tokens from byte `at` on, which has this line number. It takes no memory.
    pub fn new(text: &'a [u8], at: usize, line: u32) -> Tokens<'a>
        requires place { at ≤ length text.now }
        requires lines { line + length text.now < 2 ^ 32 + at }
        ensures text { result.text ≡ text.now }
        ensures tokens { result.tokens ≡ lexemes 0 (drop at text.now) at line }
    {
        Tokens { text, at, line }
    }

    /// The next token, or `None` at the end. `LongWord` stands for a word of more than `MAX_WORD_BYTES` bytes, and comes again at each later call.
    pub fn next(&mut self) -> Result<Option<Token<'a>>, LongWord>
        ensures next { TakesNext result self.old self.new }
        ensures place { IfOk result (λ o. IfSome o
            (λ t. slice_range self.old.text t.at (t.at + length t.text.now) ≡ t.text.now)) }
    {
        let (at, line) = next_start(self.text, self.at, self.line);
        self.at = at;
        self.line = line;
        if at == self.text.len() {
            return Ok(None);
        }
        match token_at(self.text, at, line) {
            Ok(token) => {
                self.at = at + token.text.len();
                Ok(Some(token))
            }
            Err(e) => Err(e),
        }
    }
}
