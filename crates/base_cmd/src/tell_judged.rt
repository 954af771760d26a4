//! The line of a judgement.

ghost use Rattle.std.specs.Prelude.{◌≡◌, ◌<◌, ◌+◌, ◌*◌, if◌then◌else◌};
ghost use Rattle.text_lines.specs.Lines.{spelled};
ghost use Rattle.text_lines.specs.Spelling.{millionths_word};
ghost use Rattle.cert_judge.specs.declared.judged.Judged.TheVariants as JudgedIs;
ghost use Rattle.base_cmd.specs.Answer.{Writes, line_answer};
ghost use Rattle.base_cmd.specs.Judged.{kind_word as kind_word_lem, cert_kind_word as cert_kind_word_lem, fault_word as fault_word_lem, verdict_word as verdict_word_lem, script_kind_word as script_kind_word_lem, list_kind_word as list_kind_word_lem, net_refused, script_refused, list_refused, text_refused, cert_refused, second_refused, second_invalid, judged_words, judged_status};

use crate::ended::Ended;
use crate::saying::say;
use cert_judge::{CertKind, CertRefusal, Fault, Judged};
use gap_fraction::{Frac, Shown};
use matrix_batch::{ListKind, ListRefusal};
use mcf_base::Sink;
use script::{ScriptKind, ScriptRefusal};
use sndlib_rows::{NetKind, NetRefusal};
use text_lines::Word;
use unit_scale::{NetOptions, link_word, module_word};

fn kind_word(kind: NetKind) -> &'static [u8]
    ensures { result.now ≡ kind_word_lem kind }
{
    match kind {
        NetKind::NoHeader => b"N1",
        NetKind::LongWord => b"N2",
        NetKind::Syntax => b"N3",
        NetKind::TooMany => b"N4",
        NetKind::Duplicate => b"N5",
        NetKind::UnknownNode => b"N6",
        NetKind::BadNumber => b"N7",
        NetKind::TooFine => b"N8",
        NetKind::TooLarge => b"N9",
        NetKind::NoDemand => b"N10",
        NetKind::HopTooFar => b"N11",
    }
}

fn cert_kind_word(kind: CertKind) -> &'static [u8]
    ensures { result.now ≡ cert_kind_word_lem kind }
{
    match kind {
        CertKind::NoHeader => b"K1",
        CertKind::Syntax => b"K2",
        CertKind::UnknownName => b"K3",
        CertKind::BadNumber => b"K4",
        CertKind::TooLarge => b"K5",
        CertKind::OtherNet => b"K6",
    }
}

fn fault_word(fault: Fault) -> &'static [u8]
    ensures { result.now ≡ fault_word_lem fault }
{
    match fault {
        Fault::C1 => b"C1",
        Fault::C2 => b"C2",
        Fault::C3 => b"C3",
        Fault::C4 => b"C4",
        Fault::C5 => b"C5",
        Fault::C6 => b"C6",
        Fault::C7 => b"C7",
        Fault::C8 => b"C8",
        Fault::C9 => b"C9",
        Fault::C10 => b"C10",
    }
}

/// The word of a verdict.
pub fn verdict_word(closed: bool) -> &'static [u8]
    ensures { result.now ≡ verdict_word_lem closed }
{
    if closed { b"closed" } else { b"open" }
}

/// The status of a verdict: 0 for closed, 1 for open.
pub fn verdict_status(closed: bool) -> u8
    ensures { result ≡ (if closed then 0 else 1) }
{
    if closed { 0 } else { 1 }
}

// A number of millionths as a decimal.
fn digits(shown: Shown) -> Word
    requires { shown.micro < 1000000 }
    ensures { result ≡ millionths_word (shown.whole * 1000000 + shown.micro) }
{
    Word::decimal(shown.whole, shown.micro)
}

/// Writes the line of a network's refusal.
pub fn tell_net_refusal<K: Sink>(out: &mut K, refusal: NetRefusal) -> Ended
    ensures { Writes (K.seen out.old) (K.seen out.new) result (line_answer 3 (net_refused refusal)) }
{
    let line = Word::number(refusal.line as u128);
    let words: [&[u8]; 4] = [b"net", kind_word(refusal.kind), b"line", line.bytes()];
    say(out, b"refused", &words, 3)
}

fn script_kind_word(kind: ScriptKind) -> &'static [u8]
    ensures { result.now ≡ script_kind_word_lem kind }
{
    match kind {
        ScriptKind::Syntax => b"S1",
        ScriptKind::UnknownLink => b"S2",
        ScriptKind::BadNumber => b"S3",
        ScriptKind::TooFine => b"S4",
        ScriptKind::TooLarge => b"S5",
        ScriptKind::BelowZero => b"S6",
    }
}

/// Writes the line of a script's refusal.
pub fn tell_script_refusal<K: Sink>(out: &mut K, refusal: ScriptRefusal) -> Ended
    ensures { Writes (K.seen out.old) (K.seen out.new) result (line_answer 3 (script_refused refusal)) }
{
    let line = Word::number(refusal.line as u128);
    let words: [&[u8]; 4] = [
        b"script",
        script_kind_word(refusal.kind),
        b"line",
        line.bytes(),
    ];
    say(out, b"refused", &words, 3)
}

fn list_kind_word(kind: ListKind) -> &'static [u8]
    ensures { result.now ≡ list_kind_word_lem kind }
{
    match kind {
        ListKind::Syntax => b"M1",
        ListKind::TooMany => b"M2",
        ListKind::Duplicate => b"M3",
        ListKind::UnknownNode => b"M4",
        ListKind::BadNumber => b"M5",
        ListKind::TooFine => b"M6",
        ListKind::TooLarge => b"M7",
        ListKind::NoDemand => b"M8",
    }
}

/// Writes the line of a list's refusal.
pub fn tell_list_refusal<K: Sink>(out: &mut K, refusal: ListRefusal) -> Ended
    ensures { Writes (K.seen out.old) (K.seen out.new) result (line_answer 3 (list_refused refusal)) }
{
    let line = Word::number(refusal.line as u128);
    let words: [&[u8]; 4] = [b"list", list_kind_word(refusal.kind), b"line", line.bytes()];
    say(out, b"refused", &words, 3)
}

// Writes the line of a refusal of a certificate's text, whose file is named so.
fn tell_text_refusal<K: Sink>(out: &mut K, paper: &'static [u8], refusal: CertRefusal) -> Ended
    ensures { Writes (K.seen out.old) (K.seen out.new) result
        (line_answer 3 (text_refused paper.now refusal)) }
{
    let line = Word::number(refusal.line as u128);
    let words: [&[u8]; 4] = [paper, cert_kind_word(refusal.kind), b"line", line.bytes()];
    say(out, b"refused", &words, 3)
}

fn tell_cert_refusal<K: Sink>(out: &mut K, refusal: CertRefusal) -> Ended
    ensures { Writes (K.seen out.old) (K.seen out.new) result (line_answer 3 (cert_refused refusal)) }
{
    tell_text_refusal(out, b"cert", refusal)
}

/// Writes the line of a refusal of a second certificate's text.
pub fn tell_second_refusal<K: Sink>(out: &mut K, refusal: CertRefusal) -> Ended
    ensures { Writes (K.seen out.old) (K.seen out.new) result (line_answer 3 (second_refused refusal)) }
{
    tell_text_refusal(out, b"cert2", refusal)
}

/// Writes the line of the first condition that a second certificate fails.
pub fn tell_second_fault<K: Sink>(out: &mut K, fault: Fault) -> Ended
    ensures { Writes (K.seen out.old) (K.seen out.new) result (line_answer 1 (second_invalid fault)) }
{
    say(out, b"invalid2", &[fault_word(fault)], 1)
}

fn tell_feasible<K: Sink>(out: &mut K, options: NetOptions, value: Frac) -> Ended
    ensures { Writes (K.seen out.old) (K.seen out.new) result
        (line_answer 0 (judged_words (JudgedIs.Feasible options value))) }
{
    let fraction = Word::fraction(value.num(), value.den());
    let decimal = digits(value.digits_down());
    let words: [&[u8]; 4] = [
        link_word(options.links),
        module_word(options.modules),
        fraction.bytes(),
        decimal.bytes(),
    ];
    say(out, b"feasible", &words, 0)
}

/// Writes the line of a certificate that stands.
pub fn tell_valid<K: Sink>(
    out: &mut K,
    options: NetOptions,
    closed: bool,
    lower: Frac,
    upper: Frac,
) -> Ended
    ensures { Writes (K.seen out.old) (K.seen out.new) result
        (line_answer 0 (judged_words (JudgedIs.Valid options closed lower upper))) }
{
    let lower_fraction = Word::fraction(lower.num(), lower.den());
    let lower_decimal = digits(lower.digits_down());
    let upper_fraction = Word::fraction(upper.num(), upper.den());
    let upper_decimal = digits(upper.digits_up());
    let words: [&[u8]; 9] = [
        verdict_word(closed),
        link_word(options.links),
        module_word(options.modules),
        b"lower",
        lower_fraction.bytes(),
        lower_decimal.bytes(),
        b"upper",
        upper_fraction.bytes(),
        upper_decimal.bytes(),
    ];
    say(out, b"valid", &words, 0)
}

/// Writes the line of the judgement, and ends with its status.
pub fn tell_judged<K: Sink>(out: &mut K, judged: Judged) -> Ended
    ensures { Writes (K.seen out.old) (K.seen out.new) result
        (line_answer (judged_status judged) (judged_words judged)) }
{
    match judged {
        Judged::NetRefused(refusal) => tell_net_refusal(out, refusal),
        Judged::CertRefused(refusal) => tell_cert_refusal(out, refusal),
        Judged::Invalid(fault) => say(out, b"invalid", &[fault_word(fault)], 1),
        Judged::Feasible { options, value } => tell_feasible(out, options, value),
        Judged::Valid {
            options,
            closed,
            lower,
            upper,
        } => tell_valid(out, options, closed, lower, upper),
    }
}
