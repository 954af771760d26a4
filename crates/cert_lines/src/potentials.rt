//! Potential rows.

ghost use Rattle.std.specs.Prelude.{◌≡◌, ◌≤◌, ◌==◌, All, OnOk, count_by, length};
ghost use Rattle.std.specs.Option.{option_map};
ghost use Rattle.text_lines.specs.Lines.{words_of};
ghost use Rattle.cert_lines.specs.Forms.{seen, words_in, list_behind};
ghost use Rattle.cert_lines.specs.Rows.{of_that_many, potentials_from, potential_row};

use crate::Names;
use crate::forms::list_behind;
use crate::numbers::number_within;
use crate::refusal::CertKind;
use mcf_limits::MAX_LENGTH;
use text_lines::split_word;

const POTENTIAL: &[u8] = b"potential";

fn spaces(line: &[u8]) -> usize
    ensures { result ≡ count_by (λ b. b == 32) line.now }
{
    line.iter().filter(|b| **b == 32).count()
}

// How many words the line has.
#[tactic(auto, using(crate::proofs::LineForms::words_count))]
fn words_of_line(line: &[u8]) -> usize
    ensures { result ≡ length (words_of line.now) }
{
    spaces(line) + 1
}

/// How many words there are; none where there is no rest of a line.
pub fn count_of(words: Option<&[u8]>) -> usize
    ensures { result ≡ length (words_in (option_map (λ w. w.now) words.entry)) }
{
    match words {
        Some(line) => words_of_line(line),
        None => 0,
    }
}

/// The word behind the keyword, where just `count` words follow it, none of them empty.
pub fn of_that_many<'a>(
    key: &[u8],
    count: usize,
    line: &'a [u8],
) -> Option<(&'a [u8], Option<&'a [u8]>)>
    ensures { option_map (λ p. (p.0.now, words_in (option_map (λ w. w.now) p.1))) result
        ≡ of_that_many count (list_behind key.now (words_of line.now)) }
{
    let (first, others) = match list_behind(key, line) {
        Some(parts) => parts,
        None => return None,
    };
    if count_of(others) != count {
        return None;
    }
    Some((first, others))
}

/// The potentials of the words, each up to 2^62, put into `values`; or the first fault.
pub fn potentials_of(words: Option<&[u8]>, values: &mut [u64]) -> Result<(), CertKind>
    requires { length values.old ≡ length (words_in (option_map (λ w. w.now) words)) }
    ensures exact { seen (λ _. values.new) result
        ≡ potentials_from (words_in (option_map (λ w. w.now) words.entry)) }
    ensures within { OnOk result (All (λ n. n ≤ MAX_LENGTH) values.new) }
{
    let mut count = 0usize;
    let mut left = words;
    'values: loop {
        let line = match left {
            Some(line) => line,
            None => return Ok(()),
        };
        let (word, rest) = split_word(line);
        match number_within(word, MAX_LENGTH as u128) {
            Ok(value) => values[count] = value as u64,
            Err(kind) => return Err(kind),
        }
        count += 1;
        left = rest;
    }
}

/// The node of a potential row, its potentials in `values`.
#[tactic(auto, unfolding(crate::specs::Rows::potential_row))]
pub fn potential_row(
    names: &Names<'_, '_>,
    line: &[u8],
    values: &mut [u64],
) -> Result<u16, CertKind>
    requires { length values.old ≡ length names.now.nodes }
    ensures exact { seen (λ n. record { node = n; values = values.new }) result
        ≡ potential_row names.now (words_of line.now) }
    ensures within { OnOk result (All (λ n. n ≤ MAX_LENGTH) values.new) }
{
    let (id, words) = match of_that_many(POTENTIAL, values.len(), line) {
        Some(parts) => parts,
        None => return Err(CertKind::Syntax),
    };
    let node = match names.node_named(id) {
        Some(node) => node,
        None => return Err(CertKind::UnknownName),
    };
    match potentials_of(words, values) {
        Ok(()) => Ok(node),
        Err(kind) => Err(kind),
    }
}
