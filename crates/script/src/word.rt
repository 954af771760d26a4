//! What a word means where it stands.

ghost use Rattle.std.specs.Prelude.{◌≡◌, ℕ, ◌≤◌, ◌<◌, All, IfOk, length, slice_index};
ghost use Rattle.sndlib_grammar.specs.Number.{number_of};
ghost use Rattle.sndlib_grammar.specs.Rows.{names_of_links};
ghost use Rattle.unit_scale.specs.Units.{units_read};
ghost use Rattle.script.specs.Reading.{command as command_of, link_of, changed as changed_of, number as number_read, meaning as meaning_of};
ghost use Rattle.script.specs.Answer.{IsExpected, IsMeant};

use crate::refusal::ScriptKind;
use mcf_limits::{MAX_DECIMALS, MAX_UNITS};
use sndlib_rows::RawNet;
use unit_scale::{UnitFault, units};

const SET: &[u8] = b"set";

const ADD: &[u8] = b"add";

const SUB: &[u8] = b"sub";

const CLOSE: &[u8] = b"close";

const SHOW: &[u8] = b"show";

/// A command with a number.
#[derive(Clone, Copy, Debug, PartialEq, Eq)]
pub enum Change {
    /// The capacity becomes the number.
    Set,
    /// The number is added to it.
    Add,
    /// The number is taken from it.
    Sub,
}

/// What has to stand next.
#[derive(Clone, Copy, Debug, PartialEq, Eq)]
pub enum Expected {
    /// A command, or the end.
    Command,
    /// The link of a change.
    Link(Change),
    /// The link that is closed.
    Closing,
    /// The number of a change of that link.
    Number(Change, u16),
}

/// What a word means.
#[derive(Clone, Copy, Debug, PartialEq, Eq)]
pub enum Meaning {
    /// The command goes on.
    Expects(Expected),
    /// The link gets the capacity.
    Edits(u16, u64),
    /// The bounds are shown.
    Shows,
}

// A command.
fn command(word: &[u8]) -> Result<Meaning, ScriptKind>
    ensures { result ≡ command_of word.now }
{
    if word == SET {
        return Ok(Meaning::Expects(Expected::Link(Change::Set)));
    }
    if word == ADD {
        return Ok(Meaning::Expects(Expected::Link(Change::Add)));
    }
    if word == SUB {
        return Ok(Meaning::Expects(Expected::Link(Change::Sub)));
    }
    if word == CLOSE {
        return Ok(Meaning::Expects(Expected::Closing));
    }
    if word == SHOW {
        return Ok(Meaning::Shows);
    }
    Err(ScriptKind::Syntax)
}

// The capacity after a change by a number.
fn changed(change: Change, cap: u64, n: u64) -> Result<u64, ScriptKind>
    requires cap { cap ≤ MAX_UNITS }
    requires n { n ≤ MAX_UNITS }
    ensures value { result ≡ changed_of change cap n }
    ensures limit { IfOk result (λ new. new ≤ MAX_UNITS) }
{
    match change {
        Change::Set => Ok(n),
        Change::Add => {
            if cap + n <= MAX_UNITS {
                Ok(cap + n)
            } else {
                Err(ScriptKind::TooLarge)
            }
        }
        Change::Sub => {
            if n <= cap {
                Ok(cap - n)
            } else {
                Err(ScriptKind::BelowZero)
            }
        }
    }
}

// The number of a change of a link with that capacity.
fn number(
    change: Change,
    link: u16,
    cap: u64,
    word: &[u8],
    decimals: u8,
) -> Result<Meaning, ScriptKind>
    requires cap { cap ≤ MAX_UNITS }
    requires decimals { decimals ≤ MAX_DECIMALS }
    ensures value { result ≡ number_read change link cap (units_read decimals (number_of word.now)) }
    ensures meant { (n : ℕ) → link < n → IfOk result (IsMeant n) }
{
    let n = match units(word, decimals) {
        Ok(n) => n,
        Err(UnitFault::NotNumber) => return Err(ScriptKind::BadNumber),
        Err(UnitFault::TooFine) => return Err(ScriptKind::TooFine),
        Err(UnitFault::TooLarge) => return Err(ScriptKind::TooLarge),
    };
    match changed(change, cap, n) {
        Ok(new) => Ok(Meaning::Edits(link, new)),
        Err(kind) => Err(kind),
    }
}

/// What the word means where that is expected, under these capacities of links; or the first thing that is wrong with it.
pub fn word_meaning(
    raw: &RawNet<'_>,
    decimals: u8,
    caps: &[u64],
    expected: Expected,
    word: &[u8],
) -> Result<Meaning, ScriptKind>
    requires decimals { decimals ≤ MAX_DECIMALS }
    requires count { length caps.now ≡ length raw.now.links }
    requires caps { All (λ cap. cap ≤ MAX_UNITS) caps.now }
    requires expected { IsExpected (length caps.now) expected }
    ensures value { result ≡ meaning_of (record { links = names_of_links raw.now; decimals = decimals }) caps.now
        expected word.now }
    ensures meant { IfOk result (IsMeant (length caps.now)) }
{
    match expected {
        Expected::Command => command(word),
        Expected::Link(change) => match raw.link_named(word) {
            Some(link) => Ok(Meaning::Expects(Expected::Number(change, link))),
            None => Err(ScriptKind::UnknownLink),
        },
        Expected::Closing => match raw.link_named(word) {
            Some(link) => Ok(Meaning::Edits(link, 0)),
            None => Err(ScriptKind::UnknownLink),
        },
        Expected::Number(change, link) => {
            number(change, link, caps[link as usize], word, decimals)
        }
    }
}
