//! The text of a certificate of a total, read.

ghost use Rattle.std.specs.Prelude.{◌≡◌, ◌≤◌, IfOk, length};
ghost use Rattle.text_lines.specs.Lines.{words_of, lines_of};
ghost use Rattle.cert_text.specs.Views.{place_view, HasRoom};
ghost use Rattle.cert_text.specs.Reading.{Gives, next_line};
ghost use Rattle.kind_texts.specs.PartRead.{threshold_line, totals_at, part_from, part_in};
ghost use Rattle.kind_texts.specs.PartText.{FitsPart};

use crate::heads::{THROUGHPUT, header_at};
use crate::rows::flows_of;
use cert_lines::{CertEnd, CertKind, Names, number_within, one_behind};
use cert_text::{Place, closing, next_figures, next_opening, next_value, refused, split};
use flow_paths::{Printed, Routing};
use gap_fraction::MAX_PART;
use mcf_limits::{MAX_CERT_BYTES, MAX_LENGTH};
use std::alloc::Global;
use throughput::{PartDual, PartProof};

const LOWER: &[u8] = b"lower";

const UPPER: &[u8] = b"upper";

const THRESHOLD: &[u8] = b"threshold";

#[tactic(auto, unfolding(crate::specs::PartRead::threshold_line))]
fn threshold_line(line: &[u8]) -> Result<u64, CertKind>
    ensures { result ≡ threshold_line (words_of line.now) }
{
    let word = match one_behind(THRESHOLD, line) {
        Some(word) => word,
        None => return Err(CertKind::Syntax),
    };
    match number_within(word, MAX_LENGTH as u128) {
        Ok(value) => Ok(value as u64),
        Err(kind) => Err(kind),
    }
}

// The threshold.
#[tactic(auto, using(cert_text::proofs::LineSteps::has_line), unfolding(cert_text::specs::Reading::next_line))]
fn next_threshold(place: Place<'_>) -> Result<(u64, Place<'_>), CertEnd>
    requires { HasRoom place }
    ensures exact { Gives (λ x. (x.0, place_view x.1)) result
        (next_line threshold_line (place_view place.entry)) }
    ensures room { IfOk result (λ x. HasRoom x.1) }
{
    let (line, after) = match split(place) {
        Some(parts) => parts,
        None => return Err(refused(place.at, CertKind::Syntax)),
    };
    match threshold_line(line) {
        Ok(value) => Ok((value, after)),
        Err(kind) => Err(refused(place.at, kind)),
    }
}

// The lower and the upper fraction, and the threshold.
#[tactic(auto, unfolding(crate::specs::PartRead::totals_at))]
fn next_totals(place: Place<'_>) -> Result<((Printed, Printed, u64), Place<'_>), CertEnd>
    requires { HasRoom place }
    ensures exact { Gives (λ x. (x.0, place_view x.1)) result (totals_at (place_view place.entry)) }
    ensures room { IfOk result (λ x. HasRoom x.1) }
{
    let (lower, place) = match next_value(LOWER, MAX_PART, place) {
        Ok(read) => read,
        Err(end) => return Err(end),
    };
    let (upper, place) = match next_value(UPPER, MAX_PART, place) {
        Ok(read) => read,
        Err(end) => return Err(end),
    };
    match next_threshold(place) {
        Ok((threshold, place)) => Ok(((lower, upper, threshold), place)),
        Err(end) => Err(end),
    }
}

// What follows the gap of a certificate of that verdict and that gap.
#[tactic(auto, unfolding(crate::specs::PartRead::part_from))]
fn part_from(
    alloc: Global,
    names: &Names<'_, '_>,
    opening: (bool, u64),
    place: Place<'_>,
) -> Result<PartProof, CertEnd>
    requires { HasRoom place }
    ensures { Gives (λ x. x) result (part_from names.now (opening, place_view place.entry)) }
{
    let (closed, gap) = opening;
    let ((phases, scale), place) = match next_figures(place) {
        Ok(read) => read,
        Err(end) => return Err(end),
    };
    let ((lower, upper, threshold), place) = match next_totals(place) {
        Ok(read) => read,
        Err(end) => return Err(end),
    };
    let ((paths, dual), place) = match flows_of(alloc, names, place) {
        Ok(read) => read,
        Err(end) => return Err(end),
    };
    match closing(place) {
        Ok(()) => {}
        Err(end) => return Err(end),
    }
    let routing = Routing {
        phases,
        scale_cap: scale.0,
        scale_load: scale.1,
        paths,
    };
    let bound = PartDual { threshold, dual };
    Ok(PartProof {
        closed,
        gap,
        routing,
        lower,
        upper,
        bound,
    })
}

// What the text spells, or the first line with a fault.
#[tactic(auto, unfolding(crate::specs::PartRead::part_in))]
fn read_part(alloc: Global, names: &Names<'_, '_>, text: &[u8]) -> Result<PartProof, CertEnd>
    requires { length text.now ≤ MAX_CERT_BYTES }
    ensures { Gives (λ x. x) result (part_in names.now (lines_of text.now)) }
{
    let place = match header_at(THROUGHPUT, text) {
        Ok(place) => place,
        Err(refusal) => return Err(CertEnd::Refused(refusal)),
    };
    let (opening, place) = match next_opening(names, place) {
        Ok(read) => read,
        Err(end) => return Err(end),
    };
    part_from(alloc, names, opening, place)
}

/// The certificate of a total that the text spells in the words of the names, or the first line with a fault.
/// It keeps the limits of a text.
pub fn read_part_text(
    alloc: Global,
    names: &Names<'_, '_>,
    text: &[u8],
) -> Result<PartProof, CertEnd>
    requires { length text.now ≤ MAX_CERT_BYTES }
    ensures exact { Gives (λ x. x) result (part_in names.now (lines_of text.now)) }
    ensures fits { IfOk result (λ p. FitsPart names.now p) }
{
    read_part(alloc, names, text)
}
