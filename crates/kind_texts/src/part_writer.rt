//! The text of a certificate of a total, written.

ghost use Rattle.std.specs.Prelude.{◌≡◌, ◌<◌, []};
ghost use Rattle.text_lines.specs.Lines.{text_of};
ghost use Rattle.mcf_base.specs.Sink.{Wrote};
ghost use Rattle.text_lines.specs.Writing.{Puts};
ghost use Rattle.kind_texts.specs.PartText.{IsPartWritable, FitsPart, total_lines, from_potentials, from_lengths, from_paths, from_totals, part_lines, part_text};

use crate::head_writer::put_head;
use cert_lines::Names;
use cert_writer::{put_end, put_lengths, put_lines, put_paths, put_potentials};
use mcf_base::{Sink, WriteFault};
use text_lines::{Buffer, Word};
use throughput::PartProof;

// Puts the lines of the gap, the phases, the scale, the two fractions and the threshold.
fn put_totals<K: Sink>(
    buffer: &mut Buffer,
    out: &mut K,
    proof: &PartProof,
) -> Result<(), WriteFault>
    requires lower { proof.now.lower.micro < 1000000 }
    requires upper { proof.now.upper.micro < 1000000 }
    ensures { Puts (K.seen out.old) (K.seen out.new) buffer.old buffer.new result
        (text_of (total_lines proof.now)) }
{
    let gap = Word::decimal(proof.gap as u128 / 1000000, (proof.gap % 1000000) as u32);
    let phases = Word::number(proof.routing.phases as u128);
    let capacity = Word::number(proof.routing.scale_cap as u128);
    let load = Word::number(proof.routing.scale_load as u128);
    let lower = Word::fraction(proof.lower.num, proof.lower.den);
    let lower_value = Word::decimal(proof.lower.whole, proof.lower.micro);
    let upper = Word::fraction(proof.upper.num, proof.upper.den);
    let upper_value = Word::decimal(proof.upper.whole, proof.upper.micro);
    let threshold = Word::number(proof.bound.threshold as u128);
    let gap_line: [&[u8]; 2] = [b"gap", gap.bytes()];
    let phases_line: [&[u8]; 2] = [b"phases", phases.bytes()];
    let scale_line: [&[u8]; 3] = [b"scale", capacity.bytes(), load.bytes()];
    let lower_line: [&[u8]; 3] = [b"lower", lower.bytes(), lower_value.bytes()];
    let upper_line: [&[u8]; 3] = [b"upper", upper.bytes(), upper_value.bytes()];
    let threshold_line: [&[u8]; 2] = [b"threshold", threshold.bytes()];
    put_lines(
        buffer,
        out,
        &[
            &gap_line,
            &phases_line,
            &scale_line,
            &lower_line,
            &upper_line,
            &threshold_line,
        ],
    )
}

// Puts the potential rows and the end.
fn put_from_potentials<K: Sink>(
    buffer: &mut Buffer,
    out: &mut K,
    names: &Names<'_, '_>,
    proof: &PartProof,
) -> Result<(), WriteFault>
    requires { IsPartWritable names.now proof.now }
    ensures { Puts (K.seen out.old) (K.seen out.new) buffer.old buffer.new result
        (text_of (from_potentials names.now proof.now)) }
{
    match put_potentials(buffer, out, names, &proof.bound.dual) {
        Ok(()) => {}
        Err(fault) => return Err(fault),
    }
    put_end(buffer, out)
}

// Puts the length rows and what follows.
fn put_from_lengths<K: Sink>(
    buffer: &mut Buffer,
    out: &mut K,
    names: &Names<'_, '_>,
    proof: &PartProof,
) -> Result<(), WriteFault>
    requires { IsPartWritable names.now proof.now }
    ensures { Puts (K.seen out.old) (K.seen out.new) buffer.old buffer.new result
        (text_of (from_lengths names.now proof.now)) }
{
    match put_lengths(buffer, out, names, &proof.bound.dual) {
        Ok(()) => {}
        Err(fault) => return Err(fault),
    }
    put_from_potentials(buffer, out, names, proof)
}

// Puts the path rows and what follows.
fn put_from_paths<K: Sink>(
    buffer: &mut Buffer,
    out: &mut K,
    names: &Names<'_, '_>,
    proof: &PartProof,
) -> Result<(), WriteFault>
    requires { IsPartWritable names.now proof.now }
    ensures { Puts (K.seen out.old) (K.seen out.new) buffer.old buffer.new result
        (text_of (from_paths names.now proof.now)) }
{
    match put_paths(buffer, out, names, &proof.routing.paths) {
        Ok(()) => {}
        Err(fault) => return Err(fault),
    }
    put_from_lengths(buffer, out, names, proof)
}

// Puts the gap, the figures and what follows.
fn put_from_totals<K: Sink>(
    buffer: &mut Buffer,
    out: &mut K,
    names: &Names<'_, '_>,
    proof: &PartProof,
) -> Result<(), WriteFault>
    requires { IsPartWritable names.now proof.now }
    ensures { Puts (K.seen out.old) (K.seen out.new) buffer.old buffer.new result
        (text_of (from_totals names.now proof.now)) }
{
    match put_totals(buffer, out, proof) {
        Ok(()) => {}
        Err(fault) => return Err(fault),
    }
    put_from_paths(buffer, out, names, proof)
}

const HEADER: &[u8] = b"mcf-throughput";

// Puts all lines.
fn put_part<K: Sink>(
    buffer: &mut Buffer,
    out: &mut K,
    names: &Names<'_, '_>,
    proof: &PartProof,
) -> Result<(), WriteFault>
    requires { IsPartWritable names.now proof.now }
    ensures { Puts (K.seen out.old) (K.seen out.new) buffer.old buffer.new result
        (text_of (part_lines names.now proof.now)) }
{
    match put_head(buffer, out, HEADER, names, proof.closed) {
        Ok(()) => {}
        Err(fault) => return Err(fault),
    }
    put_from_totals(buffer, out, names, proof)
}

// Puts all lines, and writes what waits.
fn put_whole<K: Sink>(
    buffer: &mut Buffer,
    out: &mut K,
    names: &Names<'_, '_>,
    proof: &PartProof,
) -> Result<(), WriteFault>
    requires proof { IsPartWritable names.now proof.now }
    requires none { buffer.old ≡ [] }
    ensures { Wrote (K.seen out.old) (K.seen out.new) result (part_text names.now proof.now) }
{
    match put_part(buffer, out, names, proof) {
        Ok(()) => {}
        Err(fault) => return Err(fault),
    }
    buffer.flush(out)
}

/// Appends the text of the certificate of a total, in the words of the names. After a fault some front of the text was
/// appended. It takes no memory.
pub fn write_part<K: Sink>(
    names: &Names<'_, '_>,
    proof: &PartProof,
    out: &mut K,
) -> Result<(), WriteFault>
    requires { FitsPart names.now proof.now }
    ensures { Wrote (K.seen out.old) (K.seen out.new) result (part_text names.now proof.now) }
{
    let mut buffer = Buffer::new();
    put_whole(&mut buffer, out, names, proof)
}
