//! Fractions, not reduced.

ghost use Rattle.std.specs.Prelude.{◌≡◌, ◌+◌, ◌*◌, ◌^◌, ◌≤◌, ◌<◌, ◌↔◌, IsTrue};

use crate::decimals::{Shown, millionths};
use crate::order::order;
use mcf_limits::{MAX_GAP, MAX_LENGTH};
use std::cmp::Ordering;
use std::marker::Model;

/// The greatest numerator and the greatest denominator: 2^120.
pub const MAX_PART: u128 = 1 << 120;

/// A fraction of whole numbers of at most `MAX_PART`, not reduced.
#[derive(Clone, Copy)]
pub struct Frac {
    num: u128,
    den: u128,
}

impl Model for Frac {
    ghost use Rattle.gap_fraction.specs.Fraction.{Fraction, IsFraction};

    ghost Value = { Fraction };

    ghost view = { λ f. record { num = f.num; den = f.den } };

    ghost invariant = { λ f. IsFraction (record { num = f.num; den = f.den }) };

    ghost inverse = { λ f. record { num = f.num; den = f.den } };
}

impl Frac {
    ghost use Rattle.std.specs.Prelude.{◌≡◌, ◌≢◌, ◌+◌, ◌*◌, ◌≤◌, ◌<◌, ◌↔◌, IsTrue, ℕ};
    ghost use Rattle.std.specs.declared.cmp.Ordering.TheVariants.{Greater};
    ghost use Rattle.gap_fraction.specs.Fraction.{FractionLe, IsFraction, IsOrderOf, IsWithinGap};
    ghost use Rattle.gap_fraction.specs.Decimals.{millionths_down, millionths_up};

    pub fn new(num: u128, den: u128) -> Self
        requires { IsFraction (record { num = num; den = den }) }
        ensures { result ≡ record { num = num; den = den } }
    {
        Frac { num, den }
    }

    pub fn num(&self) -> u128
        ensures value { result ≡ self.now.num }
        ensures fraction { IsFraction self.now }
    {
        self.num
    }

    pub fn den(&self) -> u128
        ensures value { result ≡ self.now.den }
        ensures fraction { IsFraction self.now }
    {
        self.den
    }

    /// The order of the values.
    pub fn cmp(&self, other: &Frac) -> Ordering
        ensures order { IsOrderOf result self.now other.now }
        ensures at_most { (result ≢ Greater) ↔ FractionLe self.now other.now }
    {
        order(self.num, self.den, other.num, other.den)
    }

    /// Whether the upper fraction is at most the lower times one and the gap, which is in millionths.
    pub fn within(lower: &Frac, upper: &Frac, gap: u64) -> bool
        requires num { lower.now.num ≤ MAX_LENGTH }
        requires den { lower.now.den ≤ MAX_LENGTH }
        requires gap { gap ≤ MAX_GAP }
        ensures { IsTrue result ↔ IsWithinGap lower.now upper.now gap }
    {
        let most = Frac {
            num: lower.num * (1000000 + gap as u128),
            den: lower.den * 1000000,
        };
        match upper.cmp(&most) {
            Ordering::Greater => false,
            _ => true,
        }
    }

    /// The greatest number of millionths that is not above the value.
    pub fn digits_down(&self) -> Shown
        ensures six { result.micro < 1000000 }
        ensures value { result.whole * 1000000 + result.micro ≡ millionths_down self.now }
        ensures below { (result.whole * 1000000 + result.micro) * self.now.den ≤ self.now.num * 1000000 }
        ensures greatest { (n : ℕ) → n * self.now.den ≤ self.now.num * 1000000
            → n ≤ result.whole * 1000000 + result.micro }
    {
        let long = millionths(self.num % self.den, self.den);
        Shown {
            whole: self.num / self.den,
            micro: long.digits,
        }
    }

    /// The least number of millionths that is not below the value.
    pub fn digits_up(&self) -> Shown
        ensures six { result.micro < 1000000 }
        ensures value { result.whole * 1000000 + result.micro ≡ millionths_up self.now }
        ensures above { self.now.num * 1000000 ≤ (result.whole * 1000000 + result.micro) * self.now.den }
        ensures least { (n : ℕ) → self.now.num * 1000000 ≤ n * self.now.den
            → result.whole * 1000000 + result.micro ≤ n }
    {
        let whole = self.num / self.den;
        let long = millionths(self.num % self.den, self.den);
        if long.rest == 0 {
            return Shown {
                whole,
                micro: long.digits,
            };
        }
        if long.digits == 999999 {
            return Shown {
                whole: whole + 1,
                micro: 0,
            };
        }
        Shown {
            whole,
            micro: long.digits + 1,
        }
    }
}
