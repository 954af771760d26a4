//! Layer rows, read.

ghost use Rattle.std.specs.Prelude.{◌≡◌, ◌≤◌, ◌==◌, All, OnOk, IfOk, [], codes, count_by, length};
ghost use Rattle.std.specs.Option.{option_map};
ghost use Rattle.text_lines.specs.Lines.{words_of};
ghost use Rattle.cert_lines.specs.Forms.{seen, words_in, row_behind};
ghost use Rattle.cert_text.specs.Views.{place_view, HasRoom};
ghost use Rattle.cert_text.specs.Reading.{Gives, rows_at};
ghost use Rattle.kind_texts.specs.HopsRead.{with_count, layer_row};

use cert_lines::{
    CertEnd, CertKind, Names, begins, count_of, number_within, potentials_of, row_behind,
};
use cert_text::{Place, refused, split};
use hop_check::Layers;
use mcf_limits::{MAX_HOPS, MAX_LENGTH};
use std::alloc::Global;

const LAYER: &[u8] = b"layer";

// The two words behind the keyword, where just `count` words follow them, none of them empty.
fn row_of_count(count: usize, line: &[u8]) -> Option<(&[u8], &[u8], Option<&[u8]>)>
    ensures { option_map (λ p. (p.0.now, p.1.now, words_in (option_map (λ w. w.now) p.2))) result
        ≡ with_count count (row_behind (codes "layer") (words_of line.now)) }
{
    let (first, second, others) = match row_behind(LAYER, line) {
        Some(parts) => parts,
        None => return None,
    };
    if count_of(others) != count {
        return None;
    }
    Some((first, second, others))
}

// The node and the index of a layer row, its numbers in `values`.
#[tactic(auto, unfolding(crate::specs::HopsRead::layer_row))]
fn layer_row(names: &Names<'_, '_>, line: &[u8], values: &mut [u64]) -> Result<(u16, u8), CertKind>
    requires { length values.old ≡ length names.now.nodes }
    ensures exact { seen (λ p. record { node = p.0; index = p.1; values = values.new }) result
        ≡ layer_row names.now (words_of line.now) }
    ensures within { OnOk result (All (λ n. n ≤ MAX_LENGTH) values.new) }
{
    let (id, index, words) = match row_of_count(values.len(), line) {
        Some(parts) => parts,
        None => return Err(CertKind::Syntax),
    };
    let node = match names.node_named(id) {
        Some(node) => node,
        None => return Err(CertKind::UnknownName),
    };
    let index = match number_within(index, MAX_HOPS as u128) {
        Ok(value) => value as u8,
        Err(kind) => return Err(kind),
    };
    match potentials_of(words, values) {
        Ok(()) => Ok((node, index)),
        Err(kind) => Err(kind),
    }
}

// Reads the layer rows at the front, and answers the place behind them. `values` is a buffer for the numbers of one row.
fn next_layers<'a>(
    alloc: Global,
    names: &Names<'_, '_>,
    place: Place<'a>,
    values: &mut [u64],
    layers: &mut Layers,
) -> Result<Place<'a>, CertEnd>
    requires room { HasRoom place }
    requires buffer { length values.old ≡ length names.now.nodes }
    requires none { layers.old ≡ [] }
    ensures rows { Gives (λ p. (layers.new, place_view p)) result
        (rows_at (codes "layer") (layer_row names.now) (place_view place.entry)) }
    ensures room { IfOk result HasRoom }
{
    let mut at = place;
    'rows: loop {
        let (line, after) = match split(at) {
            Some(parts) => parts,
            None => break,
        };
        if !begins(LAYER, line) {
            break;
        }
        let row = match layer_row(names, line, values) {
            Ok(row) => row,
            Err(kind) => return Err(refused(at.at, kind)),
        };
        match layers.push(alloc, row.0, row.1, values) {
            Ok(()) => {}
            Err(_) => return Err(CertEnd::Memory),
        }
        at = after;
    }
    Ok(at)
}

// The layer rows, and the place behind them.
pub fn layers_of<'a>(
    alloc: Global,
    names: &Names<'_, '_>,
    place: Place<'a>,
) -> Result<(Layers, Place<'a>), CertEnd>
    requires { HasRoom place }
    ensures exact { Gives (λ x. (x.0, place_view x.1)) result
        (rows_at (codes "layer") (layer_row names.now) (place_view place.entry)) }
    ensures room { IfOk result (λ x. HasRoom x.1) }
{
    let mut layers = Layers::new(alloc);
    let mut values = match vec![in alloc; 0u64; names.nodes()] {
        Ok(values) => values,
        Err(_) => return Err(CertEnd::Memory),
    };
    match next_layers(alloc, names, place, &mut values, &mut layers) {
        Ok(place) => Ok((layers, place)),
        Err(end) => Err(end),
    }
}
