//! Whole texts.

ghost use Rattle.std.specs.Prelude.{◌≡◌, IfOk, List, Ok};
ghost use Rattle.text_lines.specs.Lines.{Line};
ghost use Rattle.cert_text.specs.Views.{opened_view, place_view, HasRoom};
ghost use Rattle.cert_text.specs.Reading.{Gives};
ghost use Rattle.cert_text.specs.Papers.{dual_at, routing_from, proof_from};
ghost use Rattle.cert_lines.specs.Sheet.{IsOf, sheets_of};
ghost use Rattle.cert_text.specs.declared.opening.Known.{Known};
ghost use Rattle.cert_text.specs.Whole.{opened_by, paper_in, rest_at, SaysModes};

use crate::head::{next_counted, next_figures, next_values};
use crate::opening::Opened;
use crate::place::{Place, closing};
use crate::rows::{next_lengths, next_paths, next_potentials};
use cert_lines::{CertEnd, Names};
use flow_paths::{Dual, PathStore, Proof, Routing};
use mcf_limits::MAX_PATH_CELLS;
use sndlib_rows::RawNet;
use std::alloc::Global;
use unit_scale::Scaled;

/// What a text is of: a routing alone, or a whole certificate.
#[derive(Drop)]
pub enum Paper {
    /// A routing alone.
    Routing(Routing),
    /// A whole certificate.
    Full(Proof),
}

/// The path rows at the front of the lines, and the place behind them; or the first fault in one; or memory ran out.
pub fn paths_of<'a>(
    alloc: Global,
    names: &Names<'_, '_>,
    place: Place<'a>,
) -> Result<(PathStore, Place<'a>), CertEnd>
    requires { HasRoom place }
    ensures exact { Gives (λ x. (x.0, place_view x.1)) result
        (rows_at (codes "path") (path_row names.now) (place_view place.entry)) }
    ensures room { IfOk result (λ x. HasRoom x.1) }
{
    let mut cells = [0u16; MAX_PATH_CELLS];
    let mut paths = PathStore::new(alloc);
    match next_paths(names, place, &mut cells, &mut paths) {
        Ok(place) => Ok((paths, place)),
        Err(end) => Err(end),
    }
}

ghost use Rattle.std.specs.Prelude.{codes, Some};
ghost use Rattle.cert_lines.specs.Rows.{path_row};
ghost use Rattle.cert_text.specs.Reading.{rows_at};

/// The length rows and behind them the potential rows, and the place behind those; or the first fault in one, or want of
/// memory.
#[tactic(auto, unfolding(crate::specs::Papers::dual_at))]
pub fn dual_of<'a>(
    alloc: Global,
    names: &Names<'_, '_>,
    place: Place<'a>,
) -> Result<(Dual, Place<'a>), CertEnd>
    requires { HasRoom place }
    ensures exact { Gives (λ x. (x.0, place_view x.1)) result
        (dual_at names.now (place_view place.entry)) }
    ensures room { IfOk result (λ x. HasRoom x.1) }
{
    let mut dual = Dual::new(alloc);
    let place = match next_lengths(names, place, &mut dual) {
        Ok(place) => place,
        Err(end) => return Err(end),
    };
    let mut values = match vec![in alloc; 0u64; names.nodes()] {
        Ok(values) => values,
        Err(_) => return Err(CertEnd::Memory),
    };
    match next_potentials(alloc, names, place, &mut values, &mut dual) {
        Ok(place) => Ok((dual, place)),
        Err(end) => Err(end),
    }
}

// What follows the modes of a routing.
#[tactic(auto, unfolding(crate::specs::Papers::routing_from))]
fn routing_from(alloc: Global, names: &Names<'_, '_>, place: Place<'_>) -> Result<Routing, CertEnd>
    requires { HasRoom place }
    ensures { Gives (λ x. x) result (routing_from names.now (place_view place.entry)) }
{
    let ((phases, scale), place) = match next_figures(place) {
        Ok(read) => read,
        Err(end) => return Err(end),
    };
    let (paths, place) = match paths_of(alloc, names, place) {
        Ok(read) => read,
        Err(end) => return Err(end),
    };
    match closing(place) {
        Ok(()) => Ok(Routing {
            phases,
            scale_cap: scale.0,
            scale_load: scale.1,
            paths,
        }),
        Err(end) => Err(end),
    }
}

// What follows the gap of a certificate of that verdict and that gap.
#[tactic(auto, unfolding(crate::specs::Papers::proof_from))]
fn proof_from(
    alloc: Global,
    names: &Names<'_, '_>,
    opening: (bool, u64),
    place: Place<'_>,
) -> Result<Proof, CertEnd>
    requires { HasRoom place }
    ensures { Gives (λ x. x) result (proof_from names.now (opening, place_view place.entry)) }
{
    let (closed, gap) = opening;
    let ((phases, scale), place) = match next_figures(place) {
        Ok(read) => read,
        Err(end) => return Err(end),
    };
    let ((lower, upper), place) = match next_values(place) {
        Ok(read) => read,
        Err(end) => return Err(end),
    };
    let (paths, place) = match paths_of(alloc, names, place) {
        Ok(read) => read,
        Err(end) => return Err(end),
    };
    let (dual, place) = match dual_of(alloc, names, place) {
        Ok(read) => read,
        Err(end) => return Err(end),
    };
    match closing(place) {
        Ok(()) => Ok(Proof {
            closed,
            gap,
            routing: Routing {
                phases,
                scale_cap: scale.0,
                scale_load: scale.1,
                paths,
            },
            lower,
            upper,
            dual,
        }),
        Err(end) => Err(end),
    }
}

// What follows the modes of a certificate of that verdict.
#[tactic(auto, unfolding(crate::specs::Whole::rest_at))]
fn proof_of(
    alloc: Global,
    names: &Names<'_, '_>,
    closed: bool,
    place: Place<'_>,
) -> Result<Paper, CertEnd>
    requires { HasRoom place }
    ensures { Gives (λ x. x) result (rest_at names.now (Some closed) (place_view place.entry)) }
{
    let (opening, place) = match next_counted(names, closed, place) {
        Ok(read) => read,
        Err(end) => return Err(end),
    };
    match proof_from(alloc, names, opening, place) {
        Ok(proof) => Ok(Paper::Full(proof)),
        Err(end) => Err(end),
    }
}

// What follows the modes, behind that verdict or behind none.
#[tactic(auto, unfolding(crate::specs::Whole::rest_at))]
fn paper_of(
    alloc: Global,
    names: &Names<'_, '_>,
    closed: Option<bool>,
    place: Place<'_>,
) -> Result<Paper, CertEnd>
    requires { HasRoom place }
    ensures { Gives (λ x. x) result (rest_at names.now closed (place_view place.entry)) }
{
    match closed {
        Some(closed) => proof_of(alloc, names, closed, place),
        None => match routing_from(alloc, names, place) {
            Ok(routing) => Ok(Paper::Routing(routing)),
            Err(end) => Err(end),
        },
    }
}

/// The certificate or the routing that an opened text spells of these rows and their network in units
/// under the modes that it says, in its form; or the first line with a fault.
pub fn read_rest<'a>(
    alloc: Global,
    rows: &'a RawNet<'_>,
    net: &'a Scaled,
    opened: Opened<'_>,
) -> Result<Paper, CertEnd>
    requires net { IsOf rows.now net.now }
    requires room { HasRoom opened.rest }
    ensures { (known : Known) (lines : List Line) → opened_by known lines ≡ Ok (opened_view opened.entry)
        → SaysModes net.now.options opened.entry.head
        → Gives (λ x. x) result (paper_in (sheets_of rows.now net.now) lines) }
{
    let names = Names::new(rows, net, opened.head.form);
    paper_of(alloc, &names, opened.closed, opened.rest)
}
