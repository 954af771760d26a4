//! The bytes of a text: where words and comments end, and where the next token begins.

ghost use Rattle.std.specs.Prelude.{◌≡◌, ◌+◌, ◌<◌, ◌≤◌, ◌^◌, ◌-◌, ◌==◌, length, drop, count_by, slice_index};
ghost use Rattle.std.specs.List.{prefix_len};
ghost use Rattle.sndlib_grammar.specs.Tokens.{is_blank as is_blank_lem, is_word_byte as is_word_byte_lem, is_in_comment as is_in_comment_lem, Skips, StartsAt};

fn is_blank(b: u8) -> bool
    ensures { result ≡ is_blank_lem b }
{
    b == b' ' || b == b'\t' || b == b'\r'
}

fn is_word_byte(b: u8) -> bool
    ensures { result ≡ is_word_byte_lem b }
{
    !(b == b'\n' || is_blank(b) || b == b'#' || b == b'(' || b == b')')
}

fn is_in_comment(b: u8) -> bool
    ensures { result ≡ is_in_comment_lem b }
{
    b != b'\n'
}

/// Where the bytes of a word end, from this place on.
pub fn word_end(text: &[u8], from: usize) -> usize
    requires { from ≤ length text.now }
    ensures end { result ≡ from + prefix_len is_word_byte_lem (drop from text.now) }
    ensures within { result ≤ length text.now }
{
    let mut at = from;
    while at < text.len() && is_word_byte(text[at]) {
        at += 1;
    }
    at
}

fn comment_end(text: &[u8], from: usize) -> usize
    requires { from ≤ length text.now }
    ensures end { result ≡ from + prefix_len is_in_comment_lem (drop from text.now) }
    ensures within { result ≤ length text.now }
{
    let mut at = from;
    while at < text.len() && is_in_comment(text[at]) {
        at += 1;
    }
    at
}

// The place and the line behind the blank or comment here.
fn skip_one(text: &[u8], at: usize, line: u32) -> Option<(usize, u32)>
    requires place { at ≤ length text.now }
    requires lines { line + length text.now < 2 ^ 32 + at }
    ensures { Skips text.now at line result }
{
    if at == text.len() {
        return None;
    }
    let b = text[at];
    if b == b'\n' {
        return Some((at + 1, line + 1));
    }
    if is_blank(b) {
        return Some((at + 1, line));
    }
    if b == b'#' {
        return Some((comment_end(text, at + 1), line));
    }
    None
}

/// The place and the line of the next token, or of the end.
pub fn next_start(text: &[u8], at: usize, line: u32) -> (usize, u32)
    requires place { at ≤ length text.now }
    requires lines { line + length text.now < 2 ^ 32 + at }
    ensures { StartsAt text.now at line result }
{
    let mut start = at;
    let mut number = line;
    'skips: while let Some((place, next)) = skip_one(text, start, number) {
        start = place;
        number = next;
    }
    (start, number)
}

/// The line of the end of a text: one more than the number of its line feeds.
pub fn end_line(text: &[u8]) -> u32
    requires { length text.now < 2 ^ 32 - 1 }
    ensures { result ≡ count_by (λ b. b == 10) text.now + 1 }
{
    text.iter().filter(|b| **b == b'\n').count() as u32 + 1
}
