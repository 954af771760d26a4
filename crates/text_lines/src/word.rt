//! A word made of numbers.

ghost use Rattle.std.specs.Prelude.{◌≡◌, ◌+◌, ◌∷◌, ◌<◌, ◌≤◌, ◌++◌, [], length};
ghost use Rattle.std.specs.Fmt.{decimal};
ghost use Rattle.text_lines.specs.Spelling.{fraction_word, decimal_word, six_digits};

use std::marker::Model;

const ROOM: usize = 96;

/// Up to 96 bytes of a word.
#[derive(Drop)]
pub struct Word {
    bytes: [u8; ROOM],
    used: usize,
}

impl Model for Word {
    ghost use Rattle.std.specs.Prelude.{List, ℕ, ◌≤◌, take};
    ghost use Rattle.text_lines.specs.declared.word.TheConstants.{ROOM};

    ghost Value = { List ℕ };

    ghost view = { λ s. take s.used s.bytes };

    ghost invariant = { λ s. s.used ≤ ROOM };
}

impl Word {
    fn new() -> Self
        ensures { result ≡ [] }
    {
        Word {
            bytes: [0; ROOM],
            used: 0,
        }
    }

    fn append(&mut self, piece: &[u8])
        requires { length self.old + length piece.now ≤ ROOM }
        ensures { self.new ≡ self.old ++ piece.now }
    {
        let end = self.used + piece.len();
        self.bytes[self.used..end].copy_from_slice(piece);
        self.used = end;
    }

    fn append_number(&mut self, number: u128)
        requires { length self.old + 40 ≤ ROOM }
        ensures value { self.new ≡ self.old ++ decimal number }
        ensures short { length self.new ≤ length self.old + 40 }
    {
        let mut digits = itoa::Buffer::new();
        self.append(digits.format(number).as_bytes());
    }

    /// The digits of the number.
    pub fn number(number: u128) -> Self
        ensures { result ≡ decimal number }
    {
        let mut word = Word::new();
        word.append_number(number);
        word
    }

    /// A numerator, a stroke and a denominator.
    pub fn fraction(num: u128, den: u128) -> Self
        ensures { result ≡ fraction_word num den }
    {
        let mut word = Word::new();
        word.append_number(num);
        word.append(b"/");
        word.append_number(den);
        word
    }

    /// A whole number, a point and six digits.
    pub fn decimal(whole: u128, micro: u32) -> Self
        requires { micro < 1000000 }
        ensures { result ≡ decimal_word whole micro }
    {
        let mut word = Word::new();
        word.append_number(whole);
        word.append(b".");
        word.append(&[
            digit(micro, 100000),
            digit(micro, 10000),
            digit(micro, 1000),
            digit(micro, 100),
            digit(micro, 10),
            digit(micro, 1),
        ]);
        word
    }

    pub fn bytes(&self) -> &[u8]
        ensures { result.now ≡ self.now }
    {
        &self.bytes[..self.used]
    }
}

// The digit of that place.
fn digit(number: u32, place: u32) -> u8
    requires { 1 ≤ place }
    ensures { result ≡ 48 + number / place % 10 }
{
    48 + (number / place % 10) as u8
}

ghost use Rattle.std.specs.Prelude.{◌/◌, ◌%◌};
