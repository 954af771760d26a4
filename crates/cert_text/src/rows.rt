//! The rows of one kind after the other.

ghost use Rattle.std.specs.Prelude.{◌≡◌, [], length, IfOk, codes};
ghost use Rattle.cert_lines.specs.Rows.{path_row, length_row, potential_row};
ghost use Rattle.cert_text.specs.Views.{place_view, HasRoom};
ghost use Rattle.cert_text.specs.Reading.{Gives, rows_at};

use crate::place::{Place, refused, split};
use cert_lines::{CertEnd, Names, begins, length_row, path_row, potential_row};
use flow_paths::{Dual, PathStore};
use mcf_limits::MAX_PATH_CELLS;
use std::alloc::Global;

const PATH: &[u8] = b"path";

const LENGTH: &[u8] = b"length";

const POTENTIAL: &[u8] = b"potential";

/// Reads the path rows at the front, and answers the place behind them. `cells` is a buffer for the cells of one path.
pub fn next_paths<'a>(
    names: &Names<'_, '_>,
    place: Place<'a>,
    cells: &mut [u16],
    paths: &mut PathStore,
) -> Result<Place<'a>, CertEnd>
    requires room { HasRoom place }
    requires buffer { length cells.old ≡ MAX_PATH_CELLS }
    requires none { paths.old ≡ [] }
    ensures rows { Gives (λ p. (paths.new, place_view p)) result
        (rows_at (codes "path") (path_row names.now) (place_view place.entry)) }
    ensures room { IfOk result HasRoom }
{
    let mut at = place;
    'rows: loop {
        let (line, after) = match split(at) {
            Some(parts) => parts,
            None => break,
        };
        if !begins(PATH, line) {
            break;
        }
        let row = match path_row(names, line, cells) {
            Ok(row) => row,
            Err(kind) => return Err(refused(at.at, kind)),
        };
        match paths.push(row.0, &cells[..row.2], row.1) {
            Ok(_) => {}
            Err(_) => return Err(CertEnd::Memory),
        }
        at = after;
    }
    Ok(at)
}

/// Reads the length rows at the front, and answers the place behind them.
pub fn next_lengths<'a>(
    names: &Names<'_, '_>,
    place: Place<'a>,
    dual: &mut Dual,
) -> Result<Place<'a>, CertEnd>
    requires room { HasRoom place }
    requires none { dual.old.lengths ≡ [] }
    ensures rows { Gives (λ p. (dual.new.lengths, place_view p)) result
        (rows_at (codes "length") (length_row names.now) (place_view place.entry)) }
    ensures others { dual.new.potentials ≡ dual.old.potentials }
    ensures room { IfOk result HasRoom }
{
    let mut at = place;
    'rows: loop {
        let (line, after) = match split(at) {
            Some(parts) => parts,
            None => break,
        };
        if !begins(LENGTH, line) {
            break;
        }
        let row = match length_row(names, line) {
            Ok(row) => row,
            Err(kind) => return Err(refused(at.at, kind)),
        };
        match dual.push_length(row.0, row.1) {
            Ok(()) => {}
            Err(_) => return Err(CertEnd::Memory),
        }
        at = after;
    }
    Ok(at)
}

/// Reads the potential rows at the front, and answers the place behind them. `values` is a buffer for the potentials of
/// one row.
pub fn next_potentials<'a>(
    alloc: Global,
    names: &Names<'_, '_>,
    place: Place<'a>,
    values: &mut [u64],
    dual: &mut Dual,
) -> Result<Place<'a>, CertEnd>
    requires room { HasRoom place }
    requires buffer { length values.old ≡ length names.now.nodes }
    requires none { dual.old.potentials ≡ [] }
    ensures rows { Gives (λ p. (dual.new.potentials, place_view p)) result
        (rows_at (codes "potential") (potential_row names.now) (place_view place.entry)) }
    ensures others { dual.new.lengths ≡ dual.old.lengths }
    ensures room { IfOk result HasRoom }
{
    let mut at = place;
    'rows: loop {
        let (line, after) = match split(at) {
            Some(parts) => parts,
            None => break,
        };
        if !begins(POTENTIAL, line) {
            break;
        }
        let node = match potential_row(names, line, values) {
            Ok(node) => node,
            Err(kind) => return Err(refused(at.at, kind)),
        };
        match dual.push_row(alloc, node, values) {
            Ok(()) => {}
            Err(_) => return Err(CertEnd::Memory),
        }
        at = after;
    }
    Ok(at)
}
