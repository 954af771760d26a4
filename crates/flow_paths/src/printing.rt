//! Fractions as a certificate prints them.

ghost use Rattle.std.specs.Prelude.{◌<◌};
ghost use Rattle.gap_fraction.specs.Decimals.{millionths_down, millionths_up};
ghost use Rattle.flow_paths.specs.Certificate.{IsPrinted};

use crate::Printed;
use gap_fraction::Frac;

/// The fraction, with its decimals rounded down.
pub fn printed_down(fraction: &Frac) -> Printed
    ensures printed { IsPrinted result fraction.now (millionths_down fraction.now) }
    ensures six { result.micro < 1000000 }
{
    let shown = fraction.digits_down();
    Printed {
        num: fraction.num(),
        den: fraction.den(),
        whole: shown.whole,
        micro: shown.micro,
    }
}

/// The fraction, with its decimals rounded up.
pub fn printed_up(fraction: &Frac) -> Printed
    ensures printed { IsPrinted result fraction.now (millionths_up fraction.now) }
    ensures six { result.micro < 1000000 }
{
    let shown = fraction.digits_up();
    Printed {
        num: fraction.num(),
        den: fraction.den(),
        whole: shown.whole,
        micro: shown.micro,
    }
}
