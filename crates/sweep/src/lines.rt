//! The lines of a sweep.

ghost use Rattle.std.specs.Prelude.{◌≡◌, length, map};
ghost use Rattle.mcf_base.specs.Sink.{Wrote};
ghost use Rattle.text_lines.specs.Lines.{spelled};
ghost use Rattle.whatif.specs.Planned.{evaluation_of};
ghost use Rattle.sweep.specs.Lines.{sweep_line, sweep_text};

use mcf_base::{Sink, WriteFault};
use text_lines::{Word, write_line};
use whatif::{Bounds, value_down, value_up};

// Writes the line of a link.
fn write_swept<K: Sink>(out: &mut K, id: &[u8], bounds: &Bounds) -> Result<(), WriteFault>
    ensures { Wrote (K.seen out.old) (K.seen out.new) result
        (spelled (sweep_line (id.now, evaluation_of bounds.now))) }
{
    let lower = Word::fraction(bounds.lower.num(), bounds.lower.den());
    let lower_value = value_down(&bounds.lower);
    let upper = Word::fraction(bounds.upper.num(), bounds.upper.den());
    let upper_value = value_up(&bounds.upper);
    let words: [&[u8]; 7] = [
        id,
        b"lower",
        lower.bytes(),
        lower_value.bytes(),
        b"upper",
        upper.bytes(),
        upper_value.bytes(),
    ];
    write_line(out, b"sweep", &words)
}

/// Writes a line for each link, with its id and what is shown without it, in order, each line by a write of its own. After a
/// fault a front of these lines was written. It takes no memory.
pub fn write_sweep<K: Sink>(out: &mut K, ids: &[&[u8]], bounds: &[Bounds]) -> Result<(), WriteFault>
    requires { length ids.now ≡ length bounds.now }
    ensures { Wrote (K.seen out.old) (K.seen out.new) result
        (sweep_text (map (λ id. id.now) ids.now) (map evaluation_of bounds.now)) }
{
    for (i, shown) in bounds.iter().enumerate() {
        match write_swept(out, ids[i], shown) {
            Ok(()) => {}
            Err(fault) => return Err(fault),
        }
    }
    Ok(())
}
