//! The text of a script, read.

ghost use Rattle.std.specs.Prelude.{◌≡◌, ◌≤◌, ◌<◌, ◌^◌, All, IfOk, OnOk, length};
ghost use Rattle.sndlib_grammar.specs.Tokens.{lexeme};
ghost use Rattle.sndlib_grammar.specs.Rows.{names_of_links};
ghost use Rattle.unit_scale.specs.Names.{cells_of};
ghost use Rattle.unit_scale.specs.Closed.{caps_of};
ghost use Rattle.script.specs.Reading.{after, by_kind, link_caps, scan, script_of};
ghost use Rattle.script.specs.Steps.{AreSteps};
ghost use Rattle.script.specs.Answer.{IsExpected, IsMeant, Reads, sofar_of};

use crate::reading::{Reading, take};
use crate::refusal::{ScriptEnd, ScriptKind, ScriptRefusal};
use crate::step::Script;
use crate::word::{Expected, Meaning, word_meaning};
use mcf_limits::{MAX_DECIMALS, MAX_LINKS, MAX_SCRIPT_BYTES, MAX_UNITS};
use sndlib_grammar::{Token, TokenKind, Tokens, end_line};
use sndlib_rows::RawNet;
use std::alloc::{AllocError, Global};
use unit_scale::{Scaled, cells_of};

fn refused(kind: ScriptKind, line: u32) -> ScriptEnd
    ensures { result ≡ ScriptEnd.Refused (record { line = line; kind = kind }) }
{
    ScriptEnd::Refused(ScriptRefusal { line, kind })
}

// What a token means.
fn token_meaning(
    raw: &RawNet<'_>,
    decimals: u8,
    reading: &Reading,
    token: &Token<'_>,
) -> Result<Meaning, ScriptKind>
    requires decimals { decimals ≤ MAX_DECIMALS }
    requires count { length reading.now.caps.items ≡ length raw.now.links }
    requires caps { All (λ cap. cap ≤ MAX_UNITS) reading.now.caps.items }
    requires expected { IsExpected (length reading.now.caps.items) reading.now.expected }
    ensures value { result ≡ by_kind (record { links = names_of_links raw.now; decimals = decimals })
        (sofar_of reading.now) (lexeme token.now).text (lexeme token.now).kind }
    ensures meant { IfOk result (IsMeant (length reading.now.caps.items)) }
{
    match token.kind {
        TokenKind::LeftParen => Err(ScriptKind::Syntax),
        TokenKind::RightParen => Err(ScriptKind::Syntax),
        TokenKind::Word => word_meaning(raw, decimals, &reading.caps, reading.expected, token.text),
    }
}

// The capacities of the links, each that of the link's first cell.
fn capacities(alloc: Global, net: &Scaled, links: u16) -> Result<Vec<u64>, AllocError>
    requires few { links ≤ MAX_LINKS }
    requires cells { length net.now.net.cells ≡ cells_of net.now.options.links links }
    ensures value { IfOk result (λ caps. caps.items ≡ link_caps net.now.options.links (caps_of net.now.net) links) }
    ensures count { IfOk result (λ caps. length caps.items ≡ links) }
    ensures limit { IfOk result (λ caps. All (λ cap. cap ≤ MAX_UNITS) caps.items) }
{
    let mode = net.options().links;
    let cells = net.net().cells();
    let mut caps = Vec::with_capacity(alloc, links as usize)?;
    for link in 0..links {
        let first = cells_of(mode, link) as usize;
        caps.push(cells[first].cap)?;
    }
    Ok(caps)
}

// The steps of the tokens, where `end` is the line of the end.
fn scan_tokens(
    raw: &RawNet<'_>,
    decimals: u8,
    start: Reading,
    tokens: Tokens<'_>,
    end: u32,
) -> Result<Reading, ScriptEnd>
    requires decimals { decimals ≤ MAX_DECIMALS }
    requires count { length start.caps.items ≡ length raw.now.links }
    requires caps { All (λ cap. cap ≤ MAX_UNITS) start.caps.items }
    requires steps { AreSteps (length start.caps.items) start.steps.items }
    requires expected { IsExpected (length start.caps.items) start.expected }
    ensures value { Reads (λ r. r.steps.items) result
        (scan (record { links = names_of_links raw.now; decimals = decimals }) end (sofar_of start)
        tokens.entry.tokens) }
    ensures steps { IfOk result (λ r. AreSteps (length raw.now.links) r.steps.items) }
{
    let mut rest = tokens;
    let mut reading = start;
    'tokens: loop {
        let token = match rest.next() {
            Ok(Some(token)) => token,
            Ok(None) => break,
            Err(long) => return Err(refused(ScriptKind::Syntax, long.line)),
        };
        let meaning = match token_meaning(raw, decimals, &reading, &token) {
            Ok(meaning) => meaning,
            Err(kind) => return Err(refused(kind, token.line)),
        };
        match take(&mut reading, meaning) {
            Ok(()) => {}
            Err(_) => return Err(ScriptEnd::Memory),
        }
    }
    match reading.expected {
        Expected::Command => Ok(reading),
        _ => Err(refused(ScriptKind::Syntax, end)),
    }
}

impl Script {
    /// The steps that the text stands for, on the network of these rows; or the first refusal, where the whole text is
    /// judged. Its steps are of links, in every mode.
    pub fn read(
        alloc: Global,
        raw: &RawNet<'_>,
        net: &Scaled,
        text: &[u8],
    ) -> Result<Script, ScriptEnd>
        requires text { length text.now ≤ MAX_SCRIPT_BYTES }
        requires cells { length net.now.net.cells ≡ cells_of net.now.options.links (length raw.now.links) }
        ensures value { Reads (λ s. s.steps) result (script_of raw.now net.now text.now) }
        ensures links { IfOk result (λ s. s.mode ≡ net.now.options.links) }
        ensures steps { IfOk result (λ s. AreSteps (length raw.now.links) s.steps) }
    {
        let caps = match capacities(alloc, net, raw.links()) {
            Ok(caps) => caps,
            Err(_) => return Err(ScriptEnd::Memory),
        };
        let start = Reading {
            expected: Expected::Command,
            caps,
            steps: Vec::new(alloc),
        };
        let tokens = Tokens::new(text, 0, 1);
        match scan_tokens(raw, net.decimals(), start, tokens, end_line(text)) {
            Ok(reading) => Ok(Script {
                links: net.options().links,
                steps: reading.steps,
            }),
            Err(end) => Err(end),
        }
    }
}
