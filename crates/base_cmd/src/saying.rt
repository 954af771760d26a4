//! A line of words that ends a run, written without memory.

ghost use Rattle.std.specs.Prelude.{◌∷◌, map};
ghost use Rattle.text_lines.specs.Lines.{spelled};
ghost use Rattle.base_cmd.specs.Answer.{Writes, line_answer};

use crate::ended::Ended;
use mcf_base::Sink;
use text_lines::write_line;

/// Writes a line of words, and ends with the status.
pub fn say<K: Sink>(out: &mut K, first: &[u8], words: &[&[u8]], status: u8) -> Ended
    ensures { Writes (K.seen out.old) (K.seen out.new) result
        (line_answer status (first.now ∷ map (λ w. w.now) words.now)) }
{
    match write_line(out, first, words) {
        Ok(()) => Ended::told(status),
        Err(_) => Ended::told(5),
    }
}
