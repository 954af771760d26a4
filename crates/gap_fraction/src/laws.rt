//! The limit of fractions as a plain number. Contracts name the constant, and this law says which number it is.

ghost use Rattle.std.specs.Prelude.{◌≡◌, ◌^◌};
ghost use Rattle.gap_fraction.specs.declared.fraction.TheConstants.{MAX_PART};

/// The greatest numerator and the greatest denominator.
pub fn limit_of_fractions()
    ensures { MAX_PART ≡ 2 ^ 120 }
{}
