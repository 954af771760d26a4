//! The text of a certificate with hop limits, written.

ghost use Rattle.std.specs.Prelude.{◌≡◌, ◌<◌, All, [], length, map};
ghost use Rattle.text_lines.specs.Lines.{spelled, text_of};
ghost use Rattle.mcf_base.specs.Sink.{Wrote};
ghost use Rattle.text_lines.specs.Writing.{Puts};
ghost use Rattle.hop_check.specs.LayerRows.{layer_at};
ghost use Rattle.kind_texts.specs.HopsText.{IsHopsWritable, FitsHops, layer_words, from_layers, from_potentials, from_lengths, from_paths, from_figures, hops_lines, hops_text};

use crate::head_writer::put_head;
use cert_lines::Names;
use cert_writer::{
    put_end, put_figures, put_front, put_lengths, put_numbers, put_paths, put_potentials,
};
use hop_check::{HopProof, Layers};
use mcf_base::{Sink, WriteFault};
use text_lines::{Buffer, Word};

const LAYER: &[u8] = b"layer";

// Puts a layer row.
fn put_layer<K: Sink>(
    buffer: &mut Buffer,
    out: &mut K,
    names: &Names<'_, '_>,
    layers: &Layers,
    row: usize,
) -> Result<(), WriteFault>
    requires row { row < length layers.now }
    requires node { (layer_at layers.now row).node < length names.now.nodes }
    ensures { Puts (K.seen out.old) (K.seen out.new) buffer.old buffer.new result
        (spelled (layer_words names.now (layer_at layers.now row))) }
{
    let index = Word::number(layers.index(row) as u128);
    let words = [names.node_word(layers.node(row)), index.bytes()];
    match put_front(buffer, out, LAYER, &words) {
        Ok(()) => {}
        Err(fault) => return Err(fault),
    }
    match put_numbers(buffer, out, layers.values(row)) {
        Ok(()) => {}
        Err(fault) => return Err(fault),
    }
    buffer.put(out, b"\n")
}

// Puts the layer rows.
fn put_layers<K: Sink>(
    buffer: &mut Buffer,
    out: &mut K,
    names: &Names<'_, '_>,
    layers: &Layers,
) -> Result<(), WriteFault>
    requires { All (λ r. r.node < length names.now.nodes) layers.now }
    ensures { Puts (K.seen out.old) (K.seen out.new) buffer.old buffer.new result
        (text_of (map (layer_words names.now) layers.now)) }
{
    for row in 0..layers.rows() {
        match put_layer(buffer, out, names, layers, row) {
            Ok(()) => {}
            Err(fault) => return Err(fault),
        }
    }
    Ok(())
}

// Puts the layer rows and the end.
fn put_from_layers<K: Sink>(
    buffer: &mut Buffer,
    out: &mut K,
    names: &Names<'_, '_>,
    proof: &HopProof,
) -> Result<(), WriteFault>
    requires { IsHopsWritable names.now proof.now }
    ensures { Puts (K.seen out.old) (K.seen out.new) buffer.old buffer.new result
        (text_of (from_layers names.now proof.now)) }
{
    match put_layers(buffer, out, names, &proof.layers) {
        Ok(()) => {}
        Err(fault) => return Err(fault),
    }
    put_end(buffer, out)
}

// Puts the potential rows and what follows.
fn put_from_potentials<K: Sink>(
    buffer: &mut Buffer,
    out: &mut K,
    names: &Names<'_, '_>,
    proof: &HopProof,
) -> Result<(), WriteFault>
    requires { IsHopsWritable names.now proof.now }
    ensures { Puts (K.seen out.old) (K.seen out.new) buffer.old buffer.new result
        (text_of (from_potentials names.now proof.now)) }
{
    match put_potentials(buffer, out, names, &proof.proof.dual) {
        Ok(()) => {}
        Err(fault) => return Err(fault),
    }
    put_from_layers(buffer, out, names, proof)
}

// Puts the length rows and what follows.
fn put_from_lengths<K: Sink>(
    buffer: &mut Buffer,
    out: &mut K,
    names: &Names<'_, '_>,
    proof: &HopProof,
) -> Result<(), WriteFault>
    requires { IsHopsWritable names.now proof.now }
    ensures { Puts (K.seen out.old) (K.seen out.new) buffer.old buffer.new result
        (text_of (from_lengths names.now proof.now)) }
{
    match put_lengths(buffer, out, names, &proof.proof.dual) {
        Ok(()) => {}
        Err(fault) => return Err(fault),
    }
    put_from_potentials(buffer, out, names, proof)
}

// Puts the path rows and what follows.
fn put_from_paths<K: Sink>(
    buffer: &mut Buffer,
    out: &mut K,
    names: &Names<'_, '_>,
    proof: &HopProof,
) -> Result<(), WriteFault>
    requires { IsHopsWritable names.now proof.now }
    ensures { Puts (K.seen out.old) (K.seen out.new) buffer.old buffer.new result
        (text_of (from_paths names.now proof.now)) }
{
    match put_paths(buffer, out, names, &proof.proof.routing.paths) {
        Ok(()) => {}
        Err(fault) => return Err(fault),
    }
    put_from_lengths(buffer, out, names, proof)
}

// Puts the figures and what follows.
fn put_from_figures<K: Sink>(
    buffer: &mut Buffer,
    out: &mut K,
    names: &Names<'_, '_>,
    proof: &HopProof,
) -> Result<(), WriteFault>
    requires { IsHopsWritable names.now proof.now }
    ensures { Puts (K.seen out.old) (K.seen out.new) buffer.old buffer.new result
        (text_of (from_figures names.now proof.now)) }
{
    match put_figures(buffer, out, &proof.proof) {
        Ok(()) => {}
        Err(fault) => return Err(fault),
    }
    put_from_paths(buffer, out, names, proof)
}

const HEADER: &[u8] = b"mcf-hops";

// Puts all lines.
fn put_hops<K: Sink>(
    buffer: &mut Buffer,
    out: &mut K,
    names: &Names<'_, '_>,
    proof: &HopProof,
) -> Result<(), WriteFault>
    requires { IsHopsWritable names.now proof.now }
    ensures { Puts (K.seen out.old) (K.seen out.new) buffer.old buffer.new result
        (text_of (hops_lines names.now proof.now)) }
{
    match put_head(buffer, out, HEADER, names, proof.proof.closed) {
        Ok(()) => {}
        Err(fault) => return Err(fault),
    }
    put_from_figures(buffer, out, names, proof)
}

// Puts all lines, and writes what waits.
fn put_whole<K: Sink>(
    buffer: &mut Buffer,
    out: &mut K,
    names: &Names<'_, '_>,
    proof: &HopProof,
) -> Result<(), WriteFault>
    requires proof { IsHopsWritable names.now proof.now }
    requires none { buffer.old ≡ [] }
    ensures { Wrote (K.seen out.old) (K.seen out.new) result (hops_text names.now proof.now) }
{
    match put_hops(buffer, out, names, proof) {
        Ok(()) => {}
        Err(fault) => return Err(fault),
    }
    buffer.flush(out)
}

/// Appends the text of the certificate with hop limits, in the words of the names. After a fault some front of the text
/// was appended. It takes no memory.
pub fn write_hops<K: Sink>(
    names: &Names<'_, '_>,
    proof: &HopProof,
    out: &mut K,
) -> Result<(), WriteFault>
    requires { FitsHops names.now proof.now }
    ensures { Wrote (K.seen out.old) (K.seen out.new) result (hops_text names.now proof.now) }
{
    let mut buffer = Buffer::new();
    put_whole(&mut buffer, out, names, proof)
}
