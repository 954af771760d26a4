//! From what is kept of a text to its network: the refusals behind those of the grammar, in their order.

ghost use Rattle.std.specs.Prelude.{◌≡◌, ◌≤◌, length, IfOk, OnOk, Result};
ghost use Rattle.sndlib_grammar.specs.declared.refusal.NetRefusal.{NetRefusal};
ghost use Rattle.sndlib_grammar.specs.Net.{rows_of};
ghost use Rattle.sndlib_grammar.specs.Slices.{AreSlicesOf};
ghost use Rattle.sndlib_grammar.specs.Text.{end_of};
ghost use Rattle.sndlib_read.specs.Answer.{Answers};
ghost use Rattle.sndlib_read.specs.Steps.{Gives};
ghost use Rattle.sndlib_read.specs.Numbering.{stored_fault, stored_judged};
ghost use Rattle.sndlib_read.specs.OfText.{IsOfText};
ghost use Rattle.sndlib_read.specs.Views.{kept_view};

use crate::ends::{demand_rows, link_ends};
use crate::faults::{bad_number, too_many};
use crate::kept::Kept;
use crate::names::names_of_rows;
use crate::text::read_words;
use mcf_limits::MAX_NET_BYTES;
use sndlib_grammar::{NetKind, NetRefusal, end_line};
use sndlib_rows::{NetPart, RawNet, ReadNetEnd};
use std::alloc::Global;

fn refusal(kind: NetKind, line: u32) -> ReadNetEnd
    ensures { result ≡ ReadNetEnd.Refused (record { line = line; kind = kind }) }
{
    ReadNetEnd::Refused(NetRefusal { line, kind })
}

// The network of the rows, or what is wrong with them.
fn judge<'a>(alloc: Global, rows: Kept<'a>, end: u32) -> Result<RawNet<'a>, ReadNetEnd>
    requires { IsOfText (kept_view rows) }
    ensures { Gives (λ n. n) result (stored_judged end (kept_view rows.entry)
        (stored_fault (kept_view rows.entry))) }
{
    if let Some(line) = too_many(&rows) {
        return Err(refusal(NetKind::TooMany, line));
    }
    let names = match names_of_rows(alloc, &rows) {
        Ok(names) => names,
        Err(e) => return Err(e),
    };
    let link_ends = match link_ends(alloc, &names.nodes, &rows.links) {
        Ok(ends) => ends,
        Err(e) => return Err(e),
    };
    let demands = match demand_rows(alloc, &names.nodes, &rows.demands) {
        Ok(demands) => demands,
        Err(e) => return Err(e),
    };
    if let Some(line) = bad_number(&rows) {
        return Err(refusal(NetKind::BadNumber, line));
    }
    let part = NetPart {
        nodes: rows.nodes,
        links: rows.links,
        link_ends,
        node_names: names.nodes,
        link_names: names.links,
        skipped: rows.skipped,
        end_line: end,
    };
    match RawNet::new(alloc, part, demands, names.demands) {
        Ok(net) => Ok(net),
        Err(_) => Err(ReadNetEnd::Memory),
    }
}

// The rows of a text, or its first refusal.
fn rows_of_text(alloc: Global, text: &[u8]) -> Result<RawNet<'_>, ReadNetEnd>
    requires { length text.now ≤ MAX_NET_BYTES }
    ensures { Gives (λ n. n) result (rows_of text.now) }
{
    let end = end_line(text);
    match read_words(alloc, text, end) {
        Ok(rows) => judge(alloc, rows, end),
        Err(e) => Err(e),
    }
}

/// The rows of a network text, whose words are slices of it, or its first refusal: no header (N1); a long word or a token that no text of the grammar has there, whichever comes first (N2, N3); too many rows (N4); an id twice in a section (N5); an end that is no node (N6); a word that is no number (N7). After `Memory` nothing is known of the text.
pub fn read_net(alloc: Global, text: &[u8]) -> Result<RawNet<'_>, ReadNetEnd>
    requires { length text.now ≤ MAX_NET_BYTES }
    ensures rows { Gives (λ n. n) result (rows_of text.now) }
    ensures answer { Answers text.now result }
    ensures slices { IfOk result (λ raw. AreSlicesOf text.now raw) }
{
    rows_of_text(alloc, text)
}
