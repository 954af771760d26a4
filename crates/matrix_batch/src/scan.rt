//! The matrices of the tokens, read one by one.

ghost use Rattle.std.specs.Prelude.{◌≡◌, OnOk};
ghost use Rattle.sndlib_grammar.specs.Tokens.{lexeme};
ghost use Rattle.matrix_batch.specs.declared.mode.Mode.TheVariants.{Between};
ghost use Rattle.matrix_batch.specs.Reading.{scan, nothing_read};
ghost use Rattle.matrix_batch.specs.Stored.{put as put_lem};
ghost use Rattle.matrix_batch.specs.ReadSteps.{Steps, Keeps};
ghost use Rattle.matrix_batch.specs.ReadViews.{sofar_view};

use crate::kept::Word;
use crate::mode::{Mode, after};
use crate::read_end::ReadListEnd;
use crate::sofar::Sofar;
use crate::{ListKind, ListRefusal};
use sndlib_grammar::{Token, TokenKind, Tokens};
use std::alloc::{AllocError, Global};

fn refused(line: u32) -> ReadListEnd
    ensures { result ≡ ReadListEnd.Refused (record { line = line; kind = ListKind.Syntax }) }
{
    ReadListEnd::Refused(ListRefusal {
        line,
        kind: ListKind::Syntax,
    })
}

// What is kept of a token.
fn put<'a>(
    alloc: Global,
    sofar: &mut Sofar<'a>,
    mode: Mode,
    token: &Token<'a>,
) -> Result<(), AllocError>
    ensures { OnOk result (sofar_view sofar.new
        ≡ put_lem mode (lexeme token.now) (sofar_view sofar.old)) }
{
    match token.kind {
        TokenKind::LeftParen => Ok(()),
        TokenKind::RightParen => sofar.at_right(alloc, mode),
        TokenKind::Word => sofar.at_word(
            mode,
            Word {
                text: token.text,
                line: token.line,
            },
        ),
    }
}

// One token more.
fn step<'a>(
    alloc: Global,
    sofar: &mut Sofar<'a>,
    mode: Mode,
    token: &Token<'a>,
) -> Result<Mode, ReadListEnd>
    ensures { Steps result mode (lexeme token.now) (sofar_view sofar.old) (sofar_view sofar.new) }
{
    match after(mode, token.kind) {
        None => Err(refused(token.line)),
        Some(next) => match put(alloc, sofar, mode, token) {
            Ok(()) => Ok(next),
            Err(_) => Err(ReadListEnd::Memory),
        },
    }
}

/// What is kept of the matrices of the tokens; or the first token that no list has there, or the
/// end, which is in line `end`.
pub fn scan_tokens<'a>(
    alloc: Global,
    tokens: Tokens<'a>,
    end: u32,
) -> Result<Sofar<'a>, ReadListEnd>
    ensures { Keeps result (scan end Between nothing_read tokens.entry.tokens) }
{
    let mut rest = tokens;
    let mut mode = Mode::Between;
    let mut sofar = Sofar::new(alloc);
    'tokens: loop {
        let token = match rest.next() {
            Ok(Some(token)) => token,
            Ok(None) => break,
            Err(long) => return Err(refused(long.line)),
        };
        mode = match step(alloc, &mut sofar, mode, &token) {
            Ok(next) => next,
            Err(e) => return Err(e),
        };
    }
    match mode {
        Mode::Between => Ok(sofar),
        _ => Err(refused(end)),
    }
}
