//! The line of a network's counts.

ghost use Rattle.std.specs.Prelude.{◌≡◌, ◌≤◌};
ghost use Rattle.std.specs.Option.{option_map};
ghost use Rattle.text_lines.specs.Lines.{words_of};
ghost use Rattle.cert_lines.specs.Forms.{seen, words_in};
ghost use Rattle.cert_lines.specs.HeadLines.{behind_net, first_counts, last_counts, count_words, four_counts, three_counts, counts_line};
ghost use Rattle.cert_lines.specs.Counts.{first_seen, last_seen};

use crate::Names;
use crate::forms::named_first;
use crate::numbers::number_within;
use crate::refusal::CertKind;
use text_lines::split_word;

/// The greatest count.
pub const MAX_COUNT: u128 = 4_294_967_295;

const NET: &[u8] = b"net";

const NODES: &[u8] = b"nodes";

const CELLS: &[u8] = b"cells";

const COMMODITIES: &[u8] = b"commodities";

const DECIMALS: &[u8] = b"decimals";

const SKIPPED: &[u8] = b"skipped";

const LEFT: &[u8] = b"left";

const HOPS: &[u8] = b"hops";

// The words of nodes, cells, commodities and decimals, and what follows.
#[derive(Clone, Copy)]
pub struct FirstCounts<'a> {
    nodes: &'a [u8],
    cells: &'a [u8],
    commodities: &'a [u8],
    decimals: &'a [u8],
    rest: Option<&'a [u8]>,
}

// The words of skipped, left and hops, and what follows.
#[derive(Clone, Copy)]
pub struct LastCounts<'a> {
    skipped: &'a [u8],
    left: &'a [u8],
    hops: &'a [u8],
    rest: Option<&'a [u8]>,
}

// What follows `net`.
fn behind_net(line: &[u8]) -> Option<Option<&[u8]>>
    ensures { option_map (λ r. words_in (option_map (λ w. w.now) r)) result
        ≡ behind_net (words_of line.now) }
{
    let (word, rest) = split_word(line);
    if word != NET {
        return None;
    }
    Some(rest)
}

// The words behind the first four names.
#[tactic(auto, unfolding(crate::specs::HeadLines::first_counts))]
fn first_counts(words: Option<&[u8]>) -> Option<FirstCounts<'_>>
    ensures { option_map first_seen result
        ≡ first_counts (words_in (option_map (λ w. w.now) words.entry)) }
{
    let (nodes, rest) = match named_first(NODES, words) {
        Some(parts) => parts,
        None => return None,
    };
    let (cells, rest) = match named_first(CELLS, rest) {
        Some(parts) => parts,
        None => return None,
    };
    let (commodities, rest) = match named_first(COMMODITIES, rest) {
        Some(parts) => parts,
        None => return None,
    };
    let (decimals, rest) = match named_first(DECIMALS, rest) {
        Some(parts) => parts,
        None => return None,
    };
    Some(FirstCounts {
        nodes,
        cells,
        commodities,
        decimals,
        rest,
    })
}

// The words behind the last three names.
#[tactic(auto, unfolding(crate::specs::HeadLines::last_counts))]
fn last_counts(words: Option<&[u8]>) -> Option<LastCounts<'_>>
    ensures { option_map last_seen result
        ≡ last_counts (words_in (option_map (λ w. w.now) words.entry)) }
{
    let (skipped, rest) = match named_first(SKIPPED, words) {
        Some(parts) => parts,
        None => return None,
    };
    let (left, rest) = match named_first(LEFT, rest) {
        Some(parts) => parts,
        None => return None,
    };
    let (hops, rest) = match named_first(HOPS, rest) {
        Some(parts) => parts,
        None => return None,
    };
    Some(LastCounts {
        skipped,
        left,
        hops,
        rest,
    })
}

// The words of the counts, where the line has its form.
#[tactic(auto, using(crate::proofs::LineForms::some_left), unfolding(crate::specs::HeadLines::count_words))]
fn count_words(line: &[u8]) -> Result<(FirstCounts<'_>, LastCounts<'_>), CertKind>
    ensures { seen (λ p. (first_seen p.0, last_seen p.1)) result ≡ count_words (words_of line.now) }
{
    let words = match behind_net(line) {
        Some(words) => words,
        None => return Err(CertKind::Syntax),
    };
    let first = match first_counts(words) {
        Some(first) => first,
        None => return Err(CertKind::Syntax),
    };
    let last = match last_counts(first.rest) {
        Some(last) => last,
        None => return Err(CertKind::Syntax),
    };
    match last.rest {
        Some(_) => Err(CertKind::Syntax),
        None => Ok((first, last)),
    }
}

// One count.
fn count(word: &[u8]) -> Result<u32, CertKind>
    ensures { result ≡ number_within MAX_COUNT word.now }
{
    match number_within(word, MAX_COUNT) {
        Ok(value) => Ok(value as u32),
        Err(kind) => Err(kind),
    }
}

ghost use Rattle.cert_lines.specs.Numbers.{number_within};

#[tactic(auto, unfolding(crate::specs::HeadLines::four_counts))]
fn four_counts(words: &FirstCounts<'_>) -> Result<[u32; 4], CertKind>
    ensures { result ≡ four_counts (first_seen words.now) }
{
    let nodes = match count(words.nodes) {
        Ok(value) => value,
        Err(kind) => return Err(kind),
    };
    let cells = match count(words.cells) {
        Ok(value) => value,
        Err(kind) => return Err(kind),
    };
    let commodities = match count(words.commodities) {
        Ok(value) => value,
        Err(kind) => return Err(kind),
    };
    match count(words.decimals) {
        Ok(value) => Ok([nodes, cells, commodities, value]),
        Err(kind) => Err(kind),
    }
}

#[tactic(auto, unfolding(crate::specs::HeadLines::three_counts))]
fn three_counts(words: &LastCounts<'_>) -> Result<[u32; 3], CertKind>
    ensures { result ≡ three_counts (last_seen words.now) }
{
    let skipped = match count(words.skipped) {
        Ok(value) => value,
        Err(kind) => return Err(kind),
    };
    let left = match count(words.left) {
        Ok(value) => value,
        Err(kind) => return Err(kind),
    };
    match count(words.hops) {
        Ok(value) => Ok([skipped, left, value]),
        Err(kind) => Err(kind),
    }
}

// Whether these are the counts.
fn are_counts(first: &[u32], last: &[u32], counts: &[u32]) -> bool
    requires { length counts.now ≡ length first.now + length last.now }
    ensures { result ≡ are_counts first.now last.now counts.now }
{
    let (front, back) = counts.split_at(first.len());
    front == first && back == last
}

ghost use Rattle.std.specs.Prelude.{length, ◌+◌};
ghost use Rattle.cert_lines.specs.HeadLines.{are_counts};

/// Whether these are the counts of the network: else the first thing that is wrong.
#[tactic(auto, unfolding(crate::specs::HeadLines::counts_line))]
pub fn counts_line(names: &Names<'_, '_>, line: &[u8]) -> Result<(), CertKind>
    ensures { result ≡ counts_line names.now (words_of line.now) }
{
    let (first, last) = match count_words(line) {
        Ok(words) => words,
        Err(kind) => return Err(kind),
    };
    let first = match four_counts(&first) {
        Ok(counts) => counts,
        Err(kind) => return Err(kind),
    };
    let last = match three_counts(&last) {
        Ok(counts) => counts,
        Err(kind) => return Err(kind),
    };
    if are_counts(&first, &last, &names.counts()) {
        Ok(())
    } else {
        Err(CertKind::OtherNet)
    }
}
