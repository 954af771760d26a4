//! The limits of numbers in certificates as plain numbers. Contracts name the constants, and this law says which numbers they are.

ghost use Rattle.std.specs.Prelude.{◌≡◌};
ghost use Rattle.cert_lines.specs.declared.net_line.TheConstants.{MAX_COUNT};
ghost use Rattle.cert_lines.specs.declared.numbers.TheConstants.{MAX_DIGITS};

/// The most digits of a number, and the greatest count of the line `net`.
pub fn limits_of_written_numbers()
    ensures digits { MAX_DIGITS ≡ 39 }
    ensures count { MAX_COUNT ≡ 4294967295 }
{}
