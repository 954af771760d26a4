//! The lines before the rows, one after the other.

ghost use Rattle.std.specs.Prelude.{◌≡◌, ◌≤◌, IfOk};
ghost use Rattle.cert_text.specs.Views.{place_view, HasRoom};
ghost use Rattle.cert_text.specs.Reading.{Gives, next_line, mode_line};
ghost use Rattle.text_lines.specs.Lines.{words_of};
ghost use Rattle.cert_lines.specs.HeadLines.{verdict_line, counts_line, gap_line, phases_line, scale_line, value_line};
ghost use Rattle.cert_text.specs.Papers.{modes_at, scale_at, counted_at, opening_at, values_at};

use crate::place::{Place, refused, split};
use cert_lines::{
    CertEnd, CertKind, Names, counts_line, gap_line, one_behind, phases_line, scale_line,
    value_line, verdict_line,
};
use flow_paths::Printed;
use gap_fraction::MAX_PART;
use mcf_limits::MAX_LENGTH;

// Whether the line is the keyword and this word.
#[tactic(auto, unfolding(crate::specs::Reading::mode_line))]
fn mode_line(key: &[u8], mode: &[u8], line: &[u8]) -> Result<(), CertKind>
    ensures { result ≡ mode_line key.now mode.now (words_of line.now) }
{
    let word = match one_behind(key, line) {
        Some(word) => word,
        None => return Err(CertKind::Syntax),
    };
    if word == mode {
        Ok(())
    } else {
        Err(CertKind::Syntax)
    }
}

// The place behind the line of the keyword and this word.
#[tactic(auto, using(crate::proofs::LineSteps::has_line), unfolding(crate::specs::Reading::next_line))]
fn next_mode<'a>(key: &[u8], mode: &[u8], place: Place<'a>) -> Result<Place<'a>, CertEnd>
    requires { HasRoom place }
    ensures exact { Gives (λ p. (tt, place_view p)) result
        (next_line (mode_line key.now mode.now) (place_view place.entry)) }
    ensures room { IfOk result HasRoom }
{
    let (line, after) = match split(place) {
        Some(parts) => parts,
        None => return Err(refused(place.at, CertKind::Syntax)),
    };
    match mode_line(key, mode, line) {
        Ok(()) => Ok(after),
        Err(kind) => Err(refused(place.at, kind)),
    }
}

const LINKS: &[u8] = b"links";

const MODULES: &[u8] = b"modules";

/// The lines that say how links and modules are read.
#[tactic(auto, unfolding(crate::specs::Papers::modes_at))]
pub fn next_modes<'a>(names: &Names<'_, '_>, place: Place<'a>) -> Result<Place<'a>, CertEnd>
    requires { HasRoom place }
    ensures exact { Gives place_view result (modes_at names.now (place_view place.entry)) }
    ensures room { IfOk result HasRoom }
{
    let place = match next_mode(LINKS, names.link_mode(), place) {
        Ok(place) => place,
        Err(end) => return Err(end),
    };
    match next_mode(MODULES, names.module_mode(), place) {
        Ok(place) => Ok(place),
        Err(end) => Err(end),
    }
}

// Whether the verdict is closed.
#[tactic(auto, using(crate::proofs::LineSteps::has_line), unfolding(crate::specs::Reading::next_line))]
fn next_verdict<'a>(place: Place<'a>) -> Result<(bool, Place<'a>), CertEnd>
    requires { HasRoom place }
    ensures exact { Gives (λ x. (x.0, place_view x.1)) result
        (next_line verdict_line (place_view place.entry)) }
    ensures room { IfOk result (λ x. HasRoom x.1) }
{
    let (line, after) = match split(place) {
        Some(parts) => parts,
        None => return Err(refused(place.at, CertKind::Syntax)),
    };
    match verdict_line(line) {
        Ok(value) => Ok((value, after)),
        Err(kind) => Err(refused(place.at, kind)),
    }
}

// The counts of the network.
#[tactic(auto, using(crate::proofs::LineSteps::has_line), unfolding(crate::specs::Reading::next_line))]
fn next_counts<'a>(names: &Names<'_, '_>, place: Place<'a>) -> Result<((), Place<'a>), CertEnd>
    requires { HasRoom place }
    ensures exact { Gives (λ x. (x.0, place_view x.1)) result
        (next_line (counts_line names.now) (place_view place.entry)) }
    ensures room { IfOk result (λ x. HasRoom x.1) }
{
    let (line, after) = match split(place) {
        Some(parts) => parts,
        None => return Err(refused(place.at, CertKind::Syntax)),
    };
    match counts_line(names, line) {
        Ok(value) => Ok((value, after)),
        Err(kind) => Err(refused(place.at, kind)),
    }
}

// The gap.
#[tactic(auto, using(crate::proofs::LineSteps::has_line), unfolding(crate::specs::Reading::next_line))]
fn next_gap<'a>(place: Place<'a>) -> Result<(u64, Place<'a>), CertEnd>
    requires { HasRoom place }
    ensures exact { Gives (λ x. (x.0, place_view x.1)) result
        (next_line gap_line (place_view place.entry)) }
    ensures room { IfOk result (λ x. HasRoom x.1) }
{
    let (line, after) = match split(place) {
        Some(parts) => parts,
        None => return Err(refused(place.at, CertKind::Syntax)),
    };
    match gap_line(line) {
        Ok(value) => Ok((value, after)),
        Err(kind) => Err(refused(place.at, kind)),
    }
}

// The number of phases.
#[tactic(auto, using(crate::proofs::LineSteps::has_line), unfolding(crate::specs::Reading::next_line))]
fn next_phases<'a>(place: Place<'a>) -> Result<(u32, Place<'a>), CertEnd>
    requires { HasRoom place }
    ensures exact { Gives (λ x. (x.0, place_view x.1)) result
        (next_line phases_line (place_view place.entry)) }
    ensures room { IfOk result (λ x. HasRoom x.1) }
{
    let (line, after) = match split(place) {
        Some(parts) => parts,
        None => return Err(refused(place.at, CertKind::Syntax)),
    };
    match phases_line(line) {
        Ok(value) => Ok((value, after)),
        Err(kind) => Err(refused(place.at, kind)),
    }
}

// The scale's capacity and load.
#[tactic(auto, using(crate::proofs::LineSteps::has_line), unfolding(crate::specs::Reading::next_line))]
fn next_scale<'a>(place: Place<'a>) -> Result<((u64, u64), Place<'a>), CertEnd>
    requires { HasRoom place }
    ensures exact { Gives (λ x. (x.0, place_view x.1)) result
        (next_line scale_line (place_view place.entry)) }
    ensures room { IfOk result (λ x. HasRoom x.1) }
{
    let (line, after) = match split(place) {
        Some(parts) => parts,
        None => return Err(refused(place.at, CertKind::Syntax)),
    };
    match scale_line(line) {
        Ok(value) => Ok((value, after)),
        Err(kind) => Err(refused(place.at, kind)),
    }
}

/// A fraction whose parts are up to that limit, and its decimals, behind that keyword.
#[tactic(auto, using(crate::proofs::LineSteps::has_line), unfolding(crate::specs::Reading::next_line))]
pub fn next_value<'a>(
    key: &[u8],
    most: u128,
    place: Place<'a>,
) -> Result<(Printed, Place<'a>), CertEnd>
    requires place { HasRoom place }
    requires most { most ≤ MAX_PART }
    ensures exact { Gives (λ x. (x.0, place_view x.1)) result
        (next_line (value_line key.now most) (place_view place.entry)) }
    ensures room { IfOk result (λ x. HasRoom x.1) }
{
    let (line, after) = match split(place) {
        Some(parts) => parts,
        None => return Err(refused(place.at, CertKind::Syntax)),
    };
    match value_line(key, most, line) {
        Ok(value) => Ok((value, after)),
        Err(kind) => Err(refused(place.at, kind)),
    }
}

// The two numbers of phases and scale.
#[tactic(auto, unfolding(crate::specs::Papers::scale_at))]
pub fn next_figures(place: Place<'_>) -> Result<((u32, (u64, u64)), Place<'_>), CertEnd>
    requires { HasRoom place }
    ensures exact { Gives (λ x. (x.0, place_view x.1)) result (scale_at (place_view place.entry)) }
    ensures room { IfOk result (λ x. HasRoom x.1) }
{
    let (phases, place) = match next_phases(place) {
        Ok(read) => read,
        Err(end) => return Err(end),
    };
    match next_scale(place) {
        Ok((scale, place)) => Ok(((phases, scale), place)),
        Err(end) => Err(end),
    }
}

const LOWER: &[u8] = b"lower";

const UPPER: &[u8] = b"upper";

/// The lower and the upper fraction.
#[tactic(auto, unfolding(crate::specs::Papers::values_at))]
pub fn next_values(place: Place<'_>) -> Result<((Printed, Printed), Place<'_>), CertEnd>
    requires { HasRoom place }
    ensures exact { Gives (λ x. (x.0, place_view x.1)) result (values_at (place_view place.entry)) }
    ensures room { IfOk result (λ x. HasRoom x.1) }
{
    let (lower, place) = match next_value(LOWER, MAX_LENGTH as u128, place) {
        Ok(read) => read,
        Err(end) => return Err(end),
    };
    match next_value(UPPER, MAX_PART, place) {
        Ok((upper, place)) => Ok(((lower, upper), place)),
        Err(end) => Err(end),
    }
}

/// That verdict and the gap, behind the line of counts.
#[tactic(auto, unfolding(crate::specs::Papers::counted_at))]
pub fn next_counted<'a>(
    names: &Names<'_, '_>,
    closed: bool,
    place: Place<'a>,
) -> Result<((bool, u64), Place<'a>), CertEnd>
    requires { HasRoom place }
    ensures exact { Gives (λ x. (x.0, place_view x.1)) result
        (counted_at names.now closed (place_view place.entry)) }
    ensures room { IfOk result (λ x. HasRoom x.1) }
{
    let (_, place) = match next_counts(names, place) {
        Ok(read) => read,
        Err(end) => return Err(end),
    };
    match next_gap(place) {
        Ok((gap, place)) => Ok(((closed, gap), place)),
        Err(end) => Err(end),
    }
}

/// Whether the verdict is closed, and the gap, behind the lines of modes and counts.
#[tactic(auto, unfolding(crate::specs::Papers::opening_at))]
pub fn next_opening<'a>(
    names: &Names<'_, '_>,
    place: Place<'a>,
) -> Result<((bool, u64), Place<'a>), CertEnd>
    requires { HasRoom place }
    ensures exact { Gives (λ x. (x.0, place_view x.1)) result
        (opening_at names.now (place_view place.entry)) }
    ensures room { IfOk result (λ x. HasRoom x.1) }
{
    let (closed, place) = match next_verdict(place) {
        Ok(read) => read,
        Err(end) => return Err(end),
    };
    let place = match next_modes(names, place) {
        Ok(place) => place,
        Err(end) => return Err(end),
    };
    next_counted(names, closed, place)
}
