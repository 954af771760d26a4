//! The lines before the rows.

ghost use Rattle.std.specs.Prelude.{◌≡◌, ◌*◌, ◌+◌, ◌<◌, ◌≤◌, IfOk, map};
ghost use Rattle.std.specs.Option.{option_map};
ghost use Rattle.text_lines.specs.Lines.{words_of};
ghost use Rattle.cert_lines.specs.Forms.{seen, is_fixed};
ghost use Rattle.cert_lines.specs.HeadLines.{verdict_line, gap_line, phases_line, scale_line, fraction_parts, value_line};

use crate::forms::{one_behind, stroke_parts, two_behind};
use crate::numbers::{decimal_within, number_within};
use crate::refusal::CertKind;
use flow_paths::Printed;
use gap_fraction::MAX_PART;
use mcf_limits::{MAX_GAP, MAX_LENGTH, MAX_PHASES, MAX_UNITS};

const CLOSED: &[u8] = b"verdict closed";

const OPEN: &[u8] = b"verdict open";

const GAP: &[u8] = b"gap";

const PHASES: &[u8] = b"phases";

const SCALE: &[u8] = b"scale";

/// Whether the line is this text.
#[tactic(auto, using(crate::proofs::LineForms::line_bytes))]
pub fn is_fixed(text: &[u8], line: &[u8]) -> bool
    ensures { result ≡ is_fixed text.now (words_of line.now) }
{
    line == text
}

/// Whether the verdict is closed.
pub fn verdict_line(line: &[u8]) -> Result<bool, CertKind>
    ensures { result ≡ verdict_line (words_of line.now) }
{
    if is_fixed(CLOSED, line) {
        return Ok(true);
    }
    if is_fixed(OPEN, line) {
        return Ok(false);
    }
    Err(CertKind::Syntax)
}

/// The gap in millionths.
#[tactic(auto, unfolding(crate::specs::HeadLines::gap_line))]
pub fn gap_line(line: &[u8]) -> Result<u64, CertKind>
    ensures { result ≡ gap_line (words_of line.now) }
{
    let word = match one_behind(GAP, line) {
        Some(word) => word,
        None => return Err(CertKind::Syntax),
    };
    let (whole, micro) = match decimal_within(word, MAX_GAP as u128 / 1000000) {
        Ok(value) => value,
        Err(kind) => return Err(kind),
    };
    let gap = whole * 1000000 + micro as u128;
    if gap > MAX_GAP as u128 {
        return Err(CertKind::TooLarge);
    }
    Ok(gap as u64)
}

/// The number of phases.
#[tactic(auto, unfolding(crate::specs::HeadLines::phases_line))]
pub fn phases_line(line: &[u8]) -> Result<u32, CertKind>
    ensures { result ≡ phases_line (words_of line.now) }
{
    let word = match one_behind(PHASES, line) {
        Some(word) => word,
        None => return Err(CertKind::Syntax),
    };
    match number_within(word, MAX_PHASES as u128) {
        Ok(value) => Ok(value as u32),
        Err(kind) => Err(kind),
    }
}

/// The capacity and the load of the scale.
#[tactic(auto, unfolding(crate::specs::HeadLines::scale_line))]
pub fn scale_line(line: &[u8]) -> Result<(u64, u64), CertKind>
    ensures { result ≡ scale_line (words_of line.now) }
{
    let (capacity, load) = match two_behind(SCALE, line) {
        Some(parts) => parts,
        None => return Err(CertKind::Syntax),
    };
    let capacity = match number_within(capacity, MAX_UNITS as u128) {
        Ok(value) => value as u64,
        Err(kind) => return Err(kind),
    };
    let load = match number_within(load, MAX_LENGTH as u128) {
        Ok(value) => value as u64,
        Err(kind) => return Err(kind),
    };
    Ok((capacity, load))
}

// The numerator, the denominator and the decimal behind the keyword.
#[tactic(auto, unfolding(crate::specs::HeadLines::fraction_parts))]
fn fraction_parts<'a>(
    key: &[u8],
    line: &'a [u8],
) -> Result<(&'a [u8], &'a [u8], &'a [u8]), CertKind>
    ensures { seen (λ p. (p.0.now, p.1.now, p.2.now)) result
        ≡ fraction_parts key.now (words_of line.now) }
{
    let (fraction, decimal) = match two_behind(key, line) {
        Some(parts) => parts,
        None => return Err(CertKind::Syntax),
    };
    match stroke_parts(fraction) {
        Some((num, den)) => Ok((num, den, decimal)),
        None => Err(CertKind::Syntax),
    }
}

/// A fraction whose parts are up to that limit, and its decimals.
#[tactic(auto, unfolding(crate::specs::HeadLines::value_line))]
pub fn value_line(key: &[u8], most: u128, line: &[u8]) -> Result<Printed, CertKind>
    requires { most ≤ MAX_PART }
    ensures { result ≡ value_line key.now most (words_of line.now) }
{
    let (num, den, decimal) = match fraction_parts(key, line) {
        Ok(parts) => parts,
        Err(kind) => return Err(kind),
    };
    let num = match number_within(num, most) {
        Ok(value) => value,
        Err(kind) => return Err(kind),
    };
    let den = match number_within(den, most) {
        Ok(value) => value,
        Err(kind) => return Err(kind),
    };
    match decimal_within(decimal, MAX_PART) {
        Ok((whole, micro)) => Ok(Printed {
            num,
            den,
            whole,
            micro,
        }),
        Err(kind) => Err(kind),
    }
}
