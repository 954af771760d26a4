//! Lines and rows, put into a buffer.

ghost use Rattle.std.specs.Prelude.{◌≡◌, ◌<◌, ◌≤◌, ◌++◌, ◌∷◌, [], All, length, map, codes};
ghost use Rattle.std.specs.Fmt.{decimal};
ghost use Rattle.text_lines.specs.Lines.{spelled, text_of};
ghost use Rattle.text_lines.specs.Writing.{Puts};
ghost use Rattle.text_lines.specs.Spelling.{behind};
ghost use Rattle.cert_lines.specs.Sheet.{cell_word, node_word, commodity_word};
ghost use Rattle.flow_paths.specs.PathRows.{row_at};
ghost use Rattle.flow_paths.specs.DualRows.{length_at, potential_at};
ghost use Rattle.cert_lines.specs.Spelling.{path_words, length_words, potential_words};

use cert_lines::Names;
use flow_paths::{Dual, PathStore};
use mcf_base::{Sink, WriteFault};
use text_lines::{Buffer, Word};

// Puts a line of words.
fn put_line<K: Sink>(buffer: &mut Buffer, out: &mut K, words: &[&[u8]]) -> Result<(), WriteFault>
    requires { 0 < length words.now }
    ensures { Puts (K.seen out.old) (K.seen out.new) buffer.old buffer.new result
        (spelled (map (λ w. w.now) words.now)) }
{
    let first = words[0];
    buffer.put_line(out, first, &words[1..])
}

/// Puts the lines, one after the other.
pub fn put_lines<K: Sink>(
    buffer: &mut Buffer,
    out: &mut K,
    lines: &[&[&[u8]]],
) -> Result<(), WriteFault>
    requires { All (λ l. 0 < length l.now) lines.now }
    ensures { Puts (K.seen out.old) (K.seen out.new) buffer.old buffer.new result
        (text_of (map (λ l. map (λ w. w.now) l.now) lines.now)) }
{
    for line in lines {
        match put_line(buffer, out, *line) {
            Ok(()) => {}
            Err(fault) => return Err(fault),
        }
    }
    Ok(())
}

/// Puts the first word and the words behind it, and no line feed.
pub fn put_front<K: Sink>(
    buffer: &mut Buffer,
    out: &mut K,
    first: &[u8],
    words: &[&[u8]],
) -> Result<(), WriteFault>
    ensures { Puts (K.seen out.old) (K.seen out.new) buffer.old buffer.new result
        (first.now ++ behind (map (λ w. w.now) words.now)) }
{
    match buffer.put(out, first) {
        Ok(()) => {}
        Err(fault) => return Err(fault),
    }
    buffer.put_words(out, words)
}

// Puts a space and the word of the cell: its sign, where it has one, and the id of its link.
fn put_cell<K: Sink>(
    buffer: &mut Buffer,
    out: &mut K,
    names: &Names<'_, '_>,
    cell: u16,
) -> Result<(), WriteFault>
    requires { cell < length names.now.cells }
    ensures { Puts (K.seen out.old) (K.seen out.new) buffer.old buffer.new result
        (32 ∷ cell_word names.now cell) }
{
    match buffer.put_word(out, names.cell_sign(cell)) {
        Ok(()) => {}
        Err(fault) => return Err(fault),
    }
    buffer.put(out, names.cell_id(cell))
}

// Puts the first word and the word of the cell behind it, and no line feed.
fn put_cell_front<K: Sink>(
    buffer: &mut Buffer,
    out: &mut K,
    first: &[u8],
    names: &Names<'_, '_>,
    cell: u16,
) -> Result<(), WriteFault>
    requires { cell < length names.now.cells }
    ensures { Puts (K.seen out.old) (K.seen out.new) buffer.old buffer.new result
        (first.now ++ behind (cell_word names.now cell ∷ [])) }
{
    match buffer.put(out, first) {
        Ok(()) => {}
        Err(fault) => return Err(fault),
    }
    put_cell(buffer, out, names, cell)
}

// Puts the words of the cells, a space before each.
fn put_cells<K: Sink>(
    buffer: &mut Buffer,
    out: &mut K,
    names: &Names<'_, '_>,
    cells: &[u16],
) -> Result<(), WriteFault>
    requires { All (λ c. c < length names.now.cells) cells.now }
    ensures { Puts (K.seen out.old) (K.seen out.new) buffer.old buffer.new result
        (behind (map (cell_word names.now) cells.now)) }
{
    for cell in cells {
        match put_cell(buffer, out, names, *cell) {
            Ok(()) => {}
            Err(fault) => return Err(fault),
        }
    }
    Ok(())
}

/// Puts the numbers, a space before each.
pub fn put_numbers<K: Sink>(
    buffer: &mut Buffer,
    out: &mut K,
    numbers: &[u64],
) -> Result<(), WriteFault>
    ensures { Puts (K.seen out.old) (K.seen out.new) buffer.old buffer.new result
        (behind (map decimal numbers.now)) }
{
    for number in numbers {
        match buffer.put_word(out, Word::number(*number as u128).bytes()) {
            Ok(()) => {}
            Err(fault) => return Err(fault),
        }
    }
    Ok(())
}

const PATH: &[u8] = b"path";

const LENGTH: &[u8] = b"length";

const POTENTIAL: &[u8] = b"potential";

// Puts a path row.
fn put_path<K: Sink>(
    buffer: &mut Buffer,
    out: &mut K,
    names: &Names<'_, '_>,
    paths: &PathStore,
    row: u32,
) -> Result<(), WriteFault>
    requires row { row < length paths.now }
    requires commodity { (row_at paths.now row).commodity < length names.now.commodities }
    requires cells { All (λ c. c < length names.now.cells) (row_at paths.now row).walk }
    ensures { Puts (K.seen out.old) (K.seen out.new) buffer.old buffer.new result
        (spelled (path_words names.now (row_at paths.now row))) }
{
    let weight = Word::number(paths.weight(row) as u128);
    let words = [names.commodity_word(paths.commodity(row)), weight.bytes()];
    match put_front(buffer, out, PATH, &words) {
        Ok(()) => {}
        Err(fault) => return Err(fault),
    }
    match put_cells(buffer, out, names, paths.path(row)) {
        Ok(()) => {}
        Err(fault) => return Err(fault),
    }
    buffer.put(out, b"\n")
}

// Puts a potential row.
fn put_potential<K: Sink>(
    buffer: &mut Buffer,
    out: &mut K,
    names: &Names<'_, '_>,
    dual: &Dual,
    row: usize,
) -> Result<(), WriteFault>
    requires row { row < length dual.now.potentials }
    requires node { (potential_at dual.now.potentials row).node < length names.now.nodes }
    ensures { Puts (K.seen out.old) (K.seen out.new) buffer.old buffer.new result
        (spelled (potential_words names.now (potential_at dual.now.potentials row))) }
{
    let words = [names.node_word(dual.row_node(row))];
    match put_front(buffer, out, POTENTIAL, &words) {
        Ok(()) => {}
        Err(fault) => return Err(fault),
    }
    match put_numbers(buffer, out, dual.row(row)) {
        Ok(()) => {}
        Err(fault) => return Err(fault),
    }
    buffer.put(out, b"\n")
}

// Puts a length row.
fn put_length<K: Sink>(
    buffer: &mut Buffer,
    out: &mut K,
    names: &Names<'_, '_>,
    dual: &Dual,
    row: usize,
) -> Result<(), WriteFault>
    requires row { row < length dual.now.lengths }
    requires cell { (length_at dual.now.lengths row).cell < length names.now.cells }
    ensures { Puts (K.seen out.old) (K.seen out.new) buffer.old buffer.new result
        (spelled (length_words names.now (length_at dual.now.lengths row))) }
{
    let (cell, value) = dual.length(row);
    match put_cell_front(buffer, out, LENGTH, names, cell) {
        Ok(()) => {}
        Err(fault) => return Err(fault),
    }
    match put_numbers(buffer, out, &[value]) {
        Ok(()) => {}
        Err(fault) => return Err(fault),
    }
    buffer.put(out, b"\n")
}

/// Puts the path rows.
pub fn put_paths<K: Sink>(
    buffer: &mut Buffer,
    out: &mut K,
    names: &Names<'_, '_>,
    paths: &PathStore,
) -> Result<(), WriteFault>
    requires commodities { All (λ r. r.commodity < length names.now.commodities) paths.now }
    requires cells { All (λ r. All (λ c. c < length names.now.cells) r.walk) paths.now }
    ensures { Puts (K.seen out.old) (K.seen out.new) buffer.old buffer.new result
        (text_of (map (path_words names.now) paths.now)) }
{
    for row in 0..paths.rows() {
        match put_path(buffer, out, names, paths, row) {
            Ok(()) => {}
            Err(fault) => return Err(fault),
        }
    }
    Ok(())
}

/// Puts the length rows.
pub fn put_lengths<K: Sink>(
    buffer: &mut Buffer,
    out: &mut K,
    names: &Names<'_, '_>,
    dual: &Dual,
) -> Result<(), WriteFault>
    requires { All (λ r. r.cell < length names.now.cells) dual.now.lengths }
    ensures { Puts (K.seen out.old) (K.seen out.new) buffer.old buffer.new result
        (text_of (map (length_words names.now) dual.now.lengths)) }
{
    for row in 0..dual.lengths() {
        match put_length(buffer, out, names, dual, row) {
            Ok(()) => {}
            Err(fault) => return Err(fault),
        }
    }
    Ok(())
}

/// Puts the potential rows.
pub fn put_potentials<K: Sink>(
    buffer: &mut Buffer,
    out: &mut K,
    names: &Names<'_, '_>,
    dual: &Dual,
) -> Result<(), WriteFault>
    requires { All (λ r. r.node < length names.now.nodes) dual.now.potentials }
    ensures { Puts (K.seen out.old) (K.seen out.new) buffer.old buffer.new result
        (text_of (map (potential_words names.now) dual.now.potentials)) }
{
    for row in 0..dual.rows() {
        match put_potential(buffer, out, names, dual, row) {
            Ok(()) => {}
            Err(fault) => return Err(fault),
        }
    }
    Ok(())
}
