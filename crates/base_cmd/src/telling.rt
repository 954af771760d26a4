//! The line of an outcome.

ghost use Rattle.std.specs.Prelude.{◌≡◌};
ghost use Rattle.text_lines.specs.Lines.{spelled};
ghost use Rattle.base_cmd.specs.Answer.{Writes, answer_of, line_answer, file_word as file_word_lem, work_refused};

use crate::ended::Ended;
use crate::outcome::{FileKind, Outcome};
use crate::saying::say;
use crate::tell_judged::{
    tell_judged, tell_list_refusal, tell_net_refusal, tell_script_refusal, tell_second_fault,
    tell_second_refusal,
};
use mcf_base::Sink;
use text_lines::Word;

fn file_word(kind: FileKind) -> &'static [u8]
    ensures { result.now ≡ file_word_lem kind }
{
    match kind {
        FileKind::Network => b"net",
        FileKind::Certificate => b"cert",
        FileKind::Second => b"cert2",
        FileKind::Script => b"script",
        FileKind::List => b"list",
    }
}

// Writes the line of work over its limit.
fn tell_work<K: Sink>(out: &mut K, work: u64) -> Ended
    ensures { Writes (K.seen out.old) (K.seen out.new) result (line_answer 3 (work_refused work)) }
{
    let number = Word::number(work as u128);
    let words: [&[u8]; 2] = [b"work", number.bytes()];
    say(out, b"refused", &words, 3)
}

/// Writes the line of the outcome, and ends with its status; where the output fails, with status 5.
pub fn tell<K: Sink>(out: &mut K, outcome: Outcome) -> Ended
    ensures { Writes (K.seen out.old) (K.seen out.new) result (answer_of outcome) }
{
    match outcome {
        Outcome::Usage => say(out, b"usage", &[], 2),
        Outcome::ReadFault => say(out, b"read", &[b"fault"], 4),
        Outcome::Memory => say(out, b"memory", &[], 6),
        Outcome::TooLong(kind) => say(out, b"refused", &[file_word(kind), b"TooLong"], 3),
        Outcome::NetRefused(refusal) => tell_net_refusal(out, refusal),
        Outcome::TooMuch(work) => tell_work(out, work),
        Outcome::ScriptRefused(refusal) => tell_script_refusal(out, refusal),
        Outcome::ListRefused(refusal) => tell_list_refusal(out, refusal),
        Outcome::Judged(judged) => tell_judged(out, judged),
        Outcome::SecondRefused(refusal) => tell_second_refusal(out, refusal),
        Outcome::SecondInvalid(fault) => tell_second_fault(out, fault),
    }
}
