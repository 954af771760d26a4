//! The lines of the solves of a sweep, and its status.

ghost use Rattle.std.specs.Prelude.{◌≡◌, length, map};
ghost use Rattle.std.specs.List.{list_all};
ghost use Rattle.mcf_base.specs.Sink.{Wrote};
ghost use Rattle.text_lines.specs.Lines.{spelled};
ghost use Rattle.sweep_cmd.specs.Lines.{swept_line, swept_status as swept_status_lem, swept_text, verdict_word as verdict_word_lem};

use crate::swept::Swept;
use mcf_base::{Sink, WriteFault};
use text_lines::{Word, write_line};
use whatif::{value_down, value_up};

fn verdict_word(closed: bool) -> &'static [u8]
    ensures { result.now ≡ verdict_word_lem closed }
{
    if closed { b"closed" } else { b"open" }
}

// Writes the line of a link, with this word for the verdict.
fn write_one<'a, K: Sink>(
    out: &mut K,
    id: &'a [u8],
    verdict: &'a [u8],
    swept: &Swept,
) -> Result<(), WriteFault>
    requires { verdict.now ≡ verdict_word_lem swept.now.closed }
    ensures { Wrote (K.seen out.old) (K.seen out.new) result (spelled (swept_line (id.now, swept.now))) }
{
    let phases = Word::number(swept.phases as u128);
    let lower = Word::fraction(swept.lower.num(), swept.lower.den());
    let lower_value = value_down(&swept.lower);
    let upper = Word::fraction(swept.upper.num(), swept.upper.den());
    let upper_value = value_up(&swept.upper);
    let words: [&[u8]; 10] = [
        id,
        verdict,
        b"phases",
        phases.bytes(),
        b"lower",
        lower.bytes(),
        lower_value.bytes(),
        b"upper",
        upper.bytes(),
        upper_value.bytes(),
    ];
    write_line(out, b"sweep", &words)
}

/// Writes a line for each link, with its id and what is kept of the solve without it, in order, each line by a write of its
/// own. After a fault a front of these lines was written. It takes no memory.
pub fn write_swept<K: Sink>(out: &mut K, ids: &[&[u8]], swept: &[Swept]) -> Result<(), WriteFault>
    requires { length ids.now ≡ length swept.now }
    ensures { Wrote (K.seen out.old) (K.seen out.new) result
        (swept_text (map (λ id. id.now) ids.now) swept.now) }
{
    for (i, one) in swept.iter().enumerate() {
        match write_one(out, ids[i], verdict_word(one.closed), one) {
            Ok(()) => {}
            Err(fault) => return Err(fault),
        }
    }
    Ok(())
}

// Whether each solve is closed.
fn are_closed(swept: &[Swept]) -> bool
    ensures { result ≡ list_all (λ s. s.closed) swept.now }
{
    swept.iter().all(|one| one.closed)
}

/// The status of the solves: 0 where each is closed, 1 where some is open.
pub fn swept_status(swept: &[Swept]) -> u8
    ensures { result ≡ swept_status_lem swept.now }
{
    if are_closed(swept) { 0 } else { 1 }
}
