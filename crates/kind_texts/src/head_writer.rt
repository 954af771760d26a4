//! The lines up to the counts, written.

ghost use Rattle.std.specs.Prelude.{◌≡◌, ◌∷◌, [], codes, if◌then◌else◌};
ghost use Rattle.text_lines.specs.Lines.{text_of};
ghost use Rattle.text_lines.specs.Writing.{Puts};
ghost use Rattle.cert_lines.specs.Spelling.{verdict_words, links_words, modules_words, counts_words};
ghost use Rattle.kind_texts.specs.Heads.{head_lines};

use cert_lines::Names;
use cert_writer::{put_counts, put_lines, put_modes, verdict_word};
use mcf_base::{Sink, WriteFault};
use text_lines::Buffer;

// Puts the first line.
fn put_header<'a, K: Sink>(
    buffer: &mut Buffer,
    out: &mut K,
    word: &'a [u8],
) -> Result<(), WriteFault>
    ensures { Puts (K.seen out.old) (K.seen out.new) buffer.old buffer.new result
        (text_of ((word.now ∷ codes "1" ∷ []) ∷ [])) }
{
    let first: [&'a [u8]; 2] = [word, b"1"];
    put_lines(buffer, out, &[&first])
}

// Puts the verdict, the modes and the counts.
fn put_from_verdict<K: Sink>(
    buffer: &mut Buffer,
    out: &mut K,
    names: &Names<'_, '_>,
    closed: bool,
) -> Result<(), WriteFault>
    ensures { Puts (K.seen out.old) (K.seen out.new) buffer.old buffer.new result
        (text_of (verdict_words closed ∷ links_words names.now ∷ modules_words names.now
        ∷ counts_words names.now ∷ [])) }
{
    match put_modes(
        buffer,
        out,
        verdict_word(closed),
        names.link_mode(),
        names.module_mode(),
    ) {
        Ok(()) => {}
        Err(fault) => return Err(fault),
    }
    put_counts(buffer, out, names)
}

// Puts the five lines up to the counts, the first of which begins with that word.
pub fn put_head<K: Sink>(
    buffer: &mut Buffer,
    out: &mut K,
    word: &[u8],
    names: &Names<'_, '_>,
    closed: bool,
) -> Result<(), WriteFault>
    ensures { Puts (K.seen out.old) (K.seen out.new) buffer.old buffer.new result
        (text_of (head_lines word.now names.now closed)) }
{
    match put_header(buffer, out, word) {
        Ok(()) => {}
        Err(fault) => return Err(fault),
    }
    put_from_verdict(buffer, out, names, closed)
}
