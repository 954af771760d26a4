//! The text of a certificate, written.

ghost use Rattle.std.specs.Prelude.{◌≡◌, ◌<◌, ◌∷◌, [], OnOk, OnErr, codes, if◌then◌else◌};
ghost use Rattle.text_lines.specs.Lines.{text_of};
ghost use Rattle.mcf_base.specs.Sink.{Wrote};
ghost use Rattle.text_lines.specs.Writing.{Puts};
ghost use Rattle.cert_lines.specs.Spelling.{count_at, counts_words};
ghost use Rattle.cert_writer.specs.Text.{IsWritable, FitsProof, opening_lines, figure_lines, end_line, from_potentials, from_lengths, from_paths, from_figures, from_counts, certificate_lines, certificate_text};

use crate::writing::{put_lengths, put_lines, put_paths, put_potentials};
use cert_lines::Names;
use flow_paths::Proof;
use mcf_base::{Sink, WriteFault};
use text_lines::{Buffer, Word};

/// The word of the verdict: `closed`, or `open`.
pub fn verdict_word(closed: bool) -> &'static [u8]
    ensures { result.now ≡ (if closed then codes "closed" else codes "open") }
{
    if closed { b"closed" } else { b"open" }
}

// Puts the first line.
fn put_form<'a, K: Sink>(buffer: &mut Buffer, out: &mut K, form: &'a [u8]) -> Result<(), WriteFault>
    ensures { Puts (K.seen out.old) (K.seen out.new) buffer.old buffer.new result
        (text_of ((codes "mcf-certificate" ∷ form.now ∷ []) ∷ [])) }
{
    let first: [&'a [u8]; 2] = [b"mcf-certificate", form];
    put_lines(buffer, out, &[&first])
}

/// Puts the lines of the verdict and of how links and modules are read.
pub fn put_modes<'a, K: Sink>(
    buffer: &mut Buffer,
    out: &mut K,
    verdict: &'a [u8],
    links: &'a [u8],
    modules: &'a [u8],
) -> Result<(), WriteFault>
    ensures { Puts (K.seen out.old) (K.seen out.new) buffer.old buffer.new result
        (text_of ((codes "verdict" ∷ verdict.now ∷ []) ∷ (codes "links" ∷ links.now ∷ [])
        ∷ (codes "modules" ∷ modules.now ∷ []) ∷ [])) }
{
    let verdict_line: [&'a [u8]; 2] = [b"verdict", verdict];
    let links_line: [&'a [u8]; 2] = [b"links", links];
    let modules_line: [&'a [u8]; 2] = [b"modules", modules];
    put_lines(buffer, out, &[&verdict_line, &links_line, &modules_line])
}

// Puts the form, the verdict and the modes.
fn put_opening<K: Sink>(
    buffer: &mut Buffer,
    out: &mut K,
    names: &Names<'_, '_>,
    proof: &Proof,
) -> Result<(), WriteFault>
    ensures { Puts (K.seen out.old) (K.seen out.new) buffer.old buffer.new result
        (text_of (opening_lines names.now proof.now)) }
{
    match put_form(buffer, out, names.form()) {
        Ok(()) => {}
        Err(fault) => return Err(fault),
    }
    let verdict = verdict_word(proof.closed);
    put_modes(buffer, out, verdict, names.link_mode(), names.module_mode())
}

// One count, as a word.
fn count_word(names: &Names<'_, '_>, i: usize) -> Word
    requires { i < 7 }
    ensures { result ≡ count_at names.now i }
{
    let counts = names.counts();
    Word::number(counts[i] as u128)
}

/// Puts the line of the counts.
pub fn put_counts<K: Sink>(
    buffer: &mut Buffer,
    out: &mut K,
    names: &Names<'_, '_>,
) -> Result<(), WriteFault>
    ensures { Puts (K.seen out.old) (K.seen out.new) buffer.old buffer.new result
        (text_of (counts_words names.now ∷ [])) }
{
    let nodes = count_word(names, 0);
    let cells = count_word(names, 1);
    let commodities = count_word(names, 2);
    let decimals = count_word(names, 3);
    let skipped = count_word(names, 4);
    let left = count_word(names, 5);
    let hops = count_word(names, 6);
    let words: [&[u8]; 15] = [
        b"net",
        b"nodes",
        nodes.bytes(),
        b"cells",
        cells.bytes(),
        b"commodities",
        commodities.bytes(),
        b"decimals",
        decimals.bytes(),
        b"skipped",
        skipped.bytes(),
        b"left",
        left.bytes(),
        b"hops",
        hops.bytes(),
    ];
    put_lines(buffer, out, &[&words])
}

/// Puts the lines of the gap, the phases, the scale and the two fractions.
pub fn put_figures<K: Sink>(
    buffer: &mut Buffer,
    out: &mut K,
    proof: &Proof,
) -> Result<(), WriteFault>
    requires lower { proof.now.lower.micro < 1000000 }
    requires upper { proof.now.upper.micro < 1000000 }
    ensures { Puts (K.seen out.old) (K.seen out.new) buffer.old buffer.new result
        (text_of (figure_lines proof.now)) }
{
    let gap = Word::decimal(proof.gap as u128 / 1000000, (proof.gap % 1000000) as u32);
    let phases = Word::number(proof.routing.phases as u128);
    let capacity = Word::number(proof.routing.scale_cap as u128);
    let load = Word::number(proof.routing.scale_load as u128);
    let lower = Word::fraction(proof.lower.num, proof.lower.den);
    let lower_value = Word::decimal(proof.lower.whole, proof.lower.micro);
    let upper = Word::fraction(proof.upper.num, proof.upper.den);
    let upper_value = Word::decimal(proof.upper.whole, proof.upper.micro);
    let gap_line: [&[u8]; 2] = [b"gap", gap.bytes()];
    let phases_line: [&[u8]; 2] = [b"phases", phases.bytes()];
    let scale_line: [&[u8]; 3] = [b"scale", capacity.bytes(), load.bytes()];
    let lower_line: [&[u8]; 3] = [b"lower", lower.bytes(), lower_value.bytes()];
    let upper_line: [&[u8]; 3] = [b"upper", upper.bytes(), upper_value.bytes()];
    put_lines(
        buffer,
        out,
        &[
            &gap_line,
            &phases_line,
            &scale_line,
            &lower_line,
            &upper_line,
        ],
    )
}

/// Puts the last line.
pub fn put_end<K: Sink>(buffer: &mut Buffer, out: &mut K) -> Result<(), WriteFault>
    ensures { Puts (K.seen out.old) (K.seen out.new) buffer.old buffer.new result
        (text_of (end_line ∷ [])) }
{
    let end: [&[u8]; 1] = [b"end"];
    put_lines(buffer, out, &[&end])
}

// Puts the potential rows and the end.
fn put_from_potentials<K: Sink>(
    buffer: &mut Buffer,
    out: &mut K,
    names: &Names<'_, '_>,
    proof: &Proof,
) -> Result<(), WriteFault>
    requires { IsWritable names.now proof.now }
    ensures { Puts (K.seen out.old) (K.seen out.new) buffer.old buffer.new result
        (text_of (from_potentials names.now proof.now)) }
{
    match put_potentials(buffer, out, names, &proof.dual) {
        Ok(()) => {}
        Err(fault) => return Err(fault),
    }
    put_end(buffer, out)
}

// Puts the length rows and what follows.
fn put_from_lengths<K: Sink>(
    buffer: &mut Buffer,
    out: &mut K,
    names: &Names<'_, '_>,
    proof: &Proof,
) -> Result<(), WriteFault>
    requires { IsWritable names.now proof.now }
    ensures { Puts (K.seen out.old) (K.seen out.new) buffer.old buffer.new result
        (text_of (from_lengths names.now proof.now)) }
{
    match put_lengths(buffer, out, names, &proof.dual) {
        Ok(()) => {}
        Err(fault) => return Err(fault),
    }
    put_from_potentials(buffer, out, names, proof)
}

// Puts the path rows and what follows.
fn put_from_paths<K: Sink>(
    buffer: &mut Buffer,
    out: &mut K,
    names: &Names<'_, '_>,
    proof: &Proof,
) -> Result<(), WriteFault>
    requires { IsWritable names.now proof.now }
    ensures { Puts (K.seen out.old) (K.seen out.new) buffer.old buffer.new result
        (text_of (from_paths names.now proof.now)) }
{
    match put_paths(buffer, out, names, &proof.routing.paths) {
        Ok(()) => {}
        Err(fault) => return Err(fault),
    }
    put_from_lengths(buffer, out, names, proof)
}

// Puts the figures and what follows.
fn put_from_figures<K: Sink>(
    buffer: &mut Buffer,
    out: &mut K,
    names: &Names<'_, '_>,
    proof: &Proof,
) -> Result<(), WriteFault>
    requires { IsWritable names.now proof.now }
    ensures { Puts (K.seen out.old) (K.seen out.new) buffer.old buffer.new result
        (text_of (from_figures names.now proof.now)) }
{
    match put_figures(buffer, out, proof) {
        Ok(()) => {}
        Err(fault) => return Err(fault),
    }
    put_from_paths(buffer, out, names, proof)
}

// Puts the counts and what follows.
fn put_from_counts<K: Sink>(
    buffer: &mut Buffer,
    out: &mut K,
    names: &Names<'_, '_>,
    proof: &Proof,
) -> Result<(), WriteFault>
    requires { IsWritable names.now proof.now }
    ensures { Puts (K.seen out.old) (K.seen out.new) buffer.old buffer.new result
        (text_of (from_counts names.now proof.now)) }
{
    match put_counts(buffer, out, names) {
        Ok(()) => {}
        Err(fault) => return Err(fault),
    }
    put_from_figures(buffer, out, names, proof)
}

// Puts all lines.
fn put_certificate<K: Sink>(
    buffer: &mut Buffer,
    out: &mut K,
    names: &Names<'_, '_>,
    proof: &Proof,
) -> Result<(), WriteFault>
    requires { IsWritable names.now proof.now }
    ensures { Puts (K.seen out.old) (K.seen out.new) buffer.old buffer.new result
        (text_of (certificate_lines names.now proof.now)) }
{
    match put_opening(buffer, out, names, proof) {
        Ok(()) => {}
        Err(fault) => return Err(fault),
    }
    put_from_counts(buffer, out, names, proof)
}

// Puts all lines, and writes what waits.
fn put_whole<K: Sink>(
    buffer: &mut Buffer,
    out: &mut K,
    names: &Names<'_, '_>,
    proof: &Proof,
) -> Result<(), WriteFault>
    requires proof { IsWritable names.now proof.now }
    requires none { buffer.old ≡ [] }
    ensures { Wrote (K.seen out.old) (K.seen out.new) result
        (certificate_text names.now proof.now) }
{
    match put_certificate(buffer, out, names, proof) {
        Ok(()) => {}
        Err(fault) => return Err(fault),
    }
    buffer.flush(out)
}

/// Appends the text of the certificate, in form 2. The names are of that form: form 1 is read, and never written. After a fault
/// some front of the text was appended. It takes no memory.
pub fn write_cert<K: Sink>(
    names: &Names<'_, '_>,
    proof: &Proof,
    out: &mut K,
) -> Result<(), WriteFault>
    requires form { names.now.form ≡ codes "2" }
    requires fits { FitsProof names.now proof.now }
    ensures { Wrote (K.seen out.old) (K.seen out.new) result
        (certificate_text names.now proof.now) }
{
    let mut buffer = Buffer::new();
    put_whole(&mut buffer, out, names, proof)
}
