//! The rows of the tokens, read one by one.

ghost use Rattle.std.specs.Prelude.{◌≡◌, ◌+◌, ◌<◌, ◌≤◌, ◌^◌, ◌-◌, length, IfOk, OnOk};
ghost use Rattle.sndlib_grammar.specs.Tokens.{lexeme};
ghost use Rattle.sndlib_grammar.specs.declared.mode.Part.TheVariants as parts;
ghost use Rattle.sndlib_grammar.specs.declared.mode.Mode.TheVariants.{Between};
ghost use Rattle.sndlib_grammar.specs.Modes.{depth_of};
ghost use Rattle.sndlib_grammar.specs.Reading.{scan, at_start};
ghost use Rattle.sndlib_read.specs.Steps.{Steps, Keeps};
ghost use Rattle.sndlib_read.specs.Views.{sofar_view};

use crate::kept::Kept;
use crate::sofar::Sofar;
use sndlib_grammar::{
    Mode, NetKind, NetRefusal, Part, Token, TokenKind, Tokens, closed, named, opened,
};
use sndlib_rows::{ReadNetEnd, Word};
use std::alloc::Global;

fn refused(kind: NetKind, line: u32) -> ReadNetEnd
    ensures { result ≡ ReadNetEnd.Refused (record { line = line; kind = kind }) }
{
    ReadNetEnd::Refused(NetRefusal { line, kind })
}

// One token more.
fn step<'a>(
    alloc: Global,
    sofar: &mut Sofar<'a>,
    mode: Mode,
    token: &Token<'a>,
) -> Result<Mode, ReadNetEnd>
    requires depth { depth_of mode + 1 < 2 ^ 32 }
    requires skipped { sofar.old.rows.skipped + 1 < 2 ^ 32 }
    ensures steps { Steps result mode (lexeme token.now) (sofar_view sofar.old) (sofar_view sofar.new) }
    ensures depth { IfOk result (λ m. depth_of m ≤ depth_of mode + 1) }
    ensures skipped { sofar.new.rows.skipped ≤ sofar.old.rows.skipped + 1 }
{
    match token.kind {
        TokenKind::LeftParen => match opened(mode) {
            None => Err(refused(NetKind::Syntax, token.line)),
            Some(next) => {
                sofar.at_left(mode);
                Ok(next)
            }
        },
        TokenKind::RightParen => match closed(mode) {
            None => Err(refused(NetKind::Syntax, token.line)),
            Some(next) => match sofar.at_right(alloc, mode) {
                Ok(()) => Ok(next),
                Err(_) => Err(ReadNetEnd::Memory),
            },
        },
        TokenKind::Word => match named(mode, token.text) {
            None => Err(refused(NetKind::Syntax, token.line)),
            Some(next) => match sofar.at_word(
                mode,
                Word {
                    text: token.text,
                    line: token.line,
                },
            ) {
                Ok(()) => Ok(next),
                Err(_) => Err(ReadNetEnd::Memory),
            },
        },
    }
}

/// The rows of the tokens, or the first of them that no text of the grammar has there, where `end` is the line of the end.
pub fn scan_tokens<'a>(alloc: Global, tokens: Tokens<'a>, end: u32) -> Result<Kept<'a>, ReadNetEnd>
    requires { length tokens.tokens < 2 ^ 32 - 1 }
    ensures { Keeps result (scan end (Between parts.Nodes) at_start tokens.entry.tokens) }
{
    let mut rest = tokens;
    let mut mode = Mode::Between(Part::Nodes);
    let mut sofar = Sofar::new(alloc);
    'tokens: loop {
        let token = match rest.next() {
            Ok(Some(token)) => token,
            Ok(None) => break,
            Err(long) => return Err(refused(NetKind::LongWord, long.line)),
        };
        mode = match step(alloc, &mut sofar, mode, &token) {
            Ok(next) => next,
            Err(e) => return Err(e),
        };
    }
    match mode {
        Mode::Between(Part::Rest) => Ok(sofar.rows),
        _ => Err(refused(NetKind::Syntax, end)),
    }
}
