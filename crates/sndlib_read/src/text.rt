//! A whole network text: its first line, its tokens and what is kept of them.

ghost use Rattle.std.specs.Prelude.{◌≡◌, ◌≤◌, ◌==◌, length, nat_eq, position};
ghost use Rattle.std.specs.List.{starts_with};
ghost use Rattle.sndlib_grammar.specs.Text.{header, read_of, tokens_of, end_of};
ghost use Rattle.sndlib_read.specs.Steps.{Keeps};

use crate::kept::Kept;
use crate::scan::scan_tokens;
use mcf_limits::MAX_NET_BYTES;
use sndlib_grammar::{NetKind, NetRefusal, Tokens, end_line};
use sndlib_rows::ReadNetEnd;
use std::alloc::Global;

const HEADER: &[u8] = b"?SNDlib native format; type: network;";

fn has_header(text: &[u8]) -> bool
    ensures { result ≡ starts_with nat_eq text.now header }
{
    text.starts_with(HEADER)
}

fn line_feed(text: &[u8]) -> Option<usize>
    ensures { result ≡ position (λ b. b == 10) text.now }
{
    text.iter().position(|b| *b == b'\n')
}

// The tokens behind the first line.
fn tokens(text: &[u8]) -> Tokens<'_>
    requires { length text.now ≤ MAX_NET_BYTES }
    ensures { result.tokens ≡ tokens_of text.now }
{
    match line_feed(text) {
        Some(at) => Tokens::new(text, at + 1, 2),
        None => Tokens::new(text, text.len(), 1),
    }
}

/// What is kept of a text whose last line is `end`, or its first refusal up to that of the grammar.
pub fn read_words(alloc: Global, text: &[u8], end: u32) -> Result<Kept<'_>, ReadNetEnd>
    requires size { length text.now ≤ MAX_NET_BYTES }
    requires end { end ≡ end_of text.now }
    ensures { Keeps result (read_of text.now) }
{
    if !has_header(text) {
        return Err(ReadNetEnd::Refused(NetRefusal {
            line: 1,
            kind: NetKind::NoHeader,
        }));
    }
    scan_tokens(alloc, tokens(text), end)
}
