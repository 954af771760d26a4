//! Words that are numbers, taken apart.

ghost use Rattle.std.specs.Prelude.{◌≡◌, ◌+◌, ◌<◌, ◌≤◌, length, IfSome, if◌then◌else◌};
ghost use Rattle.std.specs.Char.{is_ascii_digit};
ghost use Rattle.std.specs.List.{prefix_len};
ghost use Rattle.std.specs.Option.{option_map};
ghost use Rattle.std.specs.Str.Parse.{AllDigits, digits_value};
ghost use Rattle.sndlib_grammar.specs.Number.{is_exponent as is_exponent_lem, is_number as is_number_lem, number_of, with_exponent as with_exponent_lem, ending as ending_lem, with_digits as with_digits_lem, raised as raised_lem, lowered as lowered_lem, behind_whole as behind_whole_lem, plain, front_digits, behind_digits, AreDigits};
ghost use Rattle.sndlib_grammar.specs.Views.{number_view};

/// The digits before and behind the point of a word, and its exponent: `up` where it is not negative, else `down`.
#[derive(Clone, Copy, Debug)]
pub struct NumberParts<'a> {
    /// The digits before the point.
    pub whole: &'a [u8],
    /// The digits behind it.
    pub fraction: &'a [u8],
    /// The exponent where it is not negative, else 0.
    pub up: u8,
    /// What the exponent is below 0, else 0.
    pub down: u8,
}

fn digit_count(word: &[u8]) -> usize
    ensures value { result ≡ prefix_len is_ascii_digit word.now }
    ensures within { result ≤ length word.now }
{
    for (i, b) in word.iter().enumerate() {
        if !b.is_ascii_digit() {
            return i;
        }
    }
    word.len()
}

// One digit or two.
fn exponent_of(word: &[u8]) -> Option<u8>
    ensures value { option_map (λ n. n) result
        ≡ (if is_exponent_lem word.now then Some (digits_value 10 word.now) else None) }
    ensures small { IfSome result (λ n. n < 100) }
{
    match word {
        [one] if one.is_ascii_digit() => Some(*one - b'0'),
        [ten, one] if ten.is_ascii_digit() && one.is_ascii_digit() => {
            Some((*ten - b'0') * 10 + (*one - b'0'))
        }
        _ => None,
    }
}

// The exponent of the digits, which is not negative.
fn raised_by<'a>(number: NumberParts<'a>, digits: &[u8]) -> Option<NumberParts<'a>>
    ensures value { option_map number_view result ≡ raised_lem (number_view number.entry) digits.now }
    ensures parts { IfSome result (λ p. (p.whole.now ≡ number.entry.whole.now)
        × (p.fraction.now ≡ number.entry.fraction.now)) }
{
    let up = match exponent_of(digits) {
        Some(up) => up,
        None => return None,
    };
    Some(NumberParts { up, ..number })
}

// The same of a negative one.
fn lowered_by<'a>(number: NumberParts<'a>, digits: &[u8]) -> Option<NumberParts<'a>>
    ensures value { option_map number_view result ≡ lowered_lem (number_view number.entry) digits.now }
    ensures parts { IfSome result (λ p. (p.whole.now ≡ number.entry.whole.now)
        × (p.fraction.now ≡ number.entry.fraction.now)) }
{
    let down = match exponent_of(digits) {
        Some(down) => down,
        None => return None,
    };
    Some(NumberParts { down, ..number })
}

// Behind the `E` or `e`.
fn with_exponent<'a>(number: NumberParts<'a>, rest: &[u8]) -> Option<NumberParts<'a>>
    ensures value { option_map number_view result ≡ with_exponent_lem (number_view number.entry) rest.now }
    ensures parts { IfSome result (λ p. (p.whole.now ≡ number.entry.whole.now)
        × (p.fraction.now ≡ number.entry.fraction.now)) }
{
    match rest {
        [] => None,
        [sign, digits @ ..] => {
            if *sign == b'-' {
                lowered_by(number, digits)
            } else if *sign == b'+' {
                raised_by(number, digits)
            } else {
                raised_by(number, rest)
            }
        }
    }
}

// Behind the digits.
fn with_ending<'a>(number: NumberParts<'a>, rest: &[u8]) -> Option<NumberParts<'a>>
    ensures value { option_map number_view result ≡ ending_lem (number_view number.entry) rest.now }
    ensures parts { IfSome result (λ p. (p.whole.now ≡ number.entry.whole.now)
        × (p.fraction.now ≡ number.entry.fraction.now)) }
{
    match rest {
        [] => Some(number),
        [letter, exponent @ ..] => {
            if *letter == b'E' || *letter == b'e' {
                with_exponent(number, exponent)
            } else {
                None
            }
        }
    }
}

// A number of these digits, if there are some.
fn with_digits<'a>(whole: &'a [u8], fraction: &'a [u8], rest: &[u8]) -> Option<NumberParts<'a>>
    ensures value { option_map number_view result ≡ with_digits_lem (plain whole.now fraction.now) rest.now }
    ensures parts { IfSome result (λ p. (p.whole.now ≡ whole.now) × (p.fraction.now ≡ fraction.now)) }
{
    if whole.is_empty() && fraction.is_empty() {
        return None;
    }
    let number = NumberParts {
        whole,
        fraction,
        up: 0,
        down: 0,
    };
    with_ending(number, rest)
}

// Behind the point.
fn behind_point<'a>(whole: &'a [u8], rest: &'a [u8]) -> Option<NumberParts<'a>>
    requires { AllDigits 10 whole.now }
    ensures value { option_map number_view result
        ≡ with_digits_lem (plain whole.now (front_digits rest.now)) (behind_digits rest.now) }
    ensures digits { IfSome result (λ p. AreDigits (number_view p)) }
    ensures small { IfSome result (λ p. length p.whole.now + length p.fraction.now
        ≤ length whole.now + length rest.now) }
{
    let count = digit_count(rest);
    with_digits(whole, &rest[..count], &rest[count..])
}

// Behind the first digits.
fn behind_whole<'a>(whole: &'a [u8], rest: &'a [u8]) -> Option<NumberParts<'a>>
    requires { AllDigits 10 whole.now }
    ensures value { option_map number_view result ≡ behind_whole_lem whole.now rest.now }
    ensures digits { IfSome result (λ p. AreDigits (number_view p)) }
    ensures small { IfSome result (λ p. length p.whole.now + length p.fraction.now
        ≤ length whole.now + length rest.now) }
{
    match rest {
        [] => with_digits(whole, rest, rest),
        [point, behind @ ..] => {
            if *point == b'.' {
                behind_point(whole, behind)
            } else {
                with_digits(whole, &rest[..0], rest)
            }
        }
    }
}

/// The parts of the word, or `None` exactly where it is not a number. It takes no memory.
pub fn number_parts<'a>(word: &'a [u8]) -> Option<NumberParts<'a>>
    ensures value { option_map number_view result ≡ number_of word.now }
    ensures digits { IfSome result (λ p. AreDigits (number_view p)) }
    ensures small { IfSome result (λ p. length p.whole.now + length p.fraction.now ≤ length word.now) }
{
    let count = digit_count(word);
    behind_whole(&word[..count], &word[count..])
}

/// Whether the word is a number: digits with at most one point, and then an exponent or not.
pub fn is_number(word: &[u8]) -> bool
    ensures { result ≡ is_number_lem word.now }
{
    number_parts(word).is_some()
}
