//! Forms of lines: a keyword, and words behind it.

ghost use Rattle.std.specs.Prelude.{◌≡◌, ◌==◌, position};
ghost use Rattle.std.specs.List.{list_all};
ghost use Rattle.std.specs.Option.{option_map};
ghost use Rattle.text_lines.specs.Lines.{words_of};
ghost use Rattle.cert_lines.specs.Forms.{begins, is_full, words_in, one_behind, two_behind, list_behind, row_behind, stroke_parts, named_first};

use text_lines::split_word;

/// Whether the line begins with that word.
pub fn begins(key: &[u8], line: &[u8]) -> bool
    ensures { result ≡ begins key.now (words_of line.now) }
{
    let (word, _) = split_word(line);
    word == key
}

/// The word behind the keyword, where the line is the keyword and one word that is not empty.
pub fn one_behind<'a>(key: &[u8], line: &'a [u8]) -> Option<&'a [u8]>
    ensures { option_map (λ w. w.now) result ≡ one_behind key.now (words_of line.now) }
{
    let (word, rest) = split_word(line);
    let rest = match rest {
        Some(rest) => rest,
        None => return None,
    };
    let (first, rest) = split_word(rest);
    match rest {
        Some(_) => return None,
        None => {}
    }
    if word != key || first.is_empty() {
        return None;
    }
    Some(first)
}

/// The two words behind the keyword, where the line has that form.
pub fn two_behind<'a>(key: &[u8], line: &'a [u8]) -> Option<(&'a [u8], &'a [u8])>
    ensures { option_map (λ p. (p.0.now, p.1.now)) result ≡ two_behind key.now (words_of line.now) }
{
    let (word, rest) = split_word(line);
    let rest = match rest {
        Some(rest) => rest,
        None => return None,
    };
    let (first, rest) = split_word(rest);
    let rest = match rest {
        Some(rest) => rest,
        None => return None,
    };
    let (second, rest) = split_word(rest);
    match rest {
        Some(_) => return None,
        None => {}
    }
    if word != key || first.is_empty() || second.is_empty() {
        return None;
    }
    Some((first, second))
}

// Whether no word of the line is empty.
fn are_full(line: &[u8]) -> bool
    ensures { result ≡ list_all is_full (words_of line.now) }
{
    let mut left = line;
    'words: loop {
        let (word, rest) = split_word(left);
        if word.is_empty() {
            return false;
        }
        match rest {
            Some(rest) => left = rest,
            None => return true,
        }
    }
}

/// The word behind the keyword and what follows it, where no word is empty.
pub fn list_behind<'a>(key: &[u8], line: &'a [u8]) -> Option<(&'a [u8], Option<&'a [u8]>)>
    ensures { option_map (λ p. (p.0.now, words_in (option_map (λ w. w.now) p.1))) result
        ≡ list_behind key.now (words_of line.now) }
{
    let (word, rest) = split_word(line);
    let rest = match rest {
        Some(rest) => rest,
        None => return None,
    };
    let (first, others) = split_word(rest);
    if word != key || !are_full(rest) {
        return None;
    }
    Some((first, others))
}

/// The two words behind the keyword and what follows them, where no word is empty.
pub fn row_behind<'a>(key: &[u8], line: &'a [u8]) -> Option<(&'a [u8], &'a [u8], Option<&'a [u8]>)>
    ensures { option_map (λ p. (p.0.now, p.1.now, words_in (option_map (λ w. w.now) p.2))) result
        ≡ row_behind key.now (words_of line.now) }
{
    let (word, rest) = split_word(line);
    let rest = match rest {
        Some(rest) => rest,
        None => return None,
    };
    let (first, others) = split_word(rest);
    let others = match others {
        Some(others) => others,
        None => return None,
    };
    let (second, more) = split_word(others);
    if word != key || !are_full(rest) {
        return None;
    }
    Some((first, second, more))
}

fn stroke(word: &[u8]) -> Option<usize>
    ensures { result ≡ position (λ b. b == 47) word.now }
{
    word.iter().position(|b| *b == 47)
}

// What stands before and behind the first stroke.
pub fn stroke_parts(word: &[u8]) -> Option<(&[u8], &[u8])>
    ensures { option_map (λ p. (p.0.now, p.1.now)) result ≡ stroke_parts word.now }
{
    match stroke(word) {
        Some(i) => Some((&word[..i], &word[i + 1..])),
        None => None,
    }
}

// The word behind the name at the front, and what follows.
pub fn named_first<'a>(name: &[u8], words: Option<&'a [u8]>) -> Option<(&'a [u8], Option<&'a [u8]>)>
    ensures { option_map (λ p. (p.0.now, words_in (option_map (λ w. w.now) p.1))) result
        ≡ named_first name.now (words_in (option_map (λ w. w.now) words.entry)) }
{
    let line = match words {
        Some(line) => line,
        None => return None,
    };
    let (word, rest) = split_word(line);
    let rest = match rest {
        Some(rest) => rest,
        None => return None,
    };
    let (value, more) = split_word(rest);
    if word != name || value.is_empty() {
        return None;
    }
    Some((value, more))
}
