//! Laws of the powers of two.

ghost use Rattle.std.specs.Prelude.{◌≡◌, ℕ, ◌+◌, ◌*◌, ◌^◌, ◌<◌, ◌≤◌, length, slice_index};
ghost use Rattle.flow_model.specs.Powers.{power_table, weight_of, whole_root};

/// The whole root is the greatest number whose square is not above.
pub fn whole_root_is_greatest()
    ensures { (n : ℕ) → n < 2 ^ 64 → (whole_root n * whole_root n ≤ n)
        × (n < (whole_root n + 1) * (whole_root n + 1)) }
{}

/// The table has 257 values and never rises.
pub fn table_never_rises()
    ensures count { length power_table ≡ 257 }
    ensures falls { (i : ℕ) → i < 256 → slice_index power_table (i + 1) ≤ slice_index power_table i }
{}

/// A weight never grows with the drop.
pub fn weights_never_grow()
    ensures { (d e : ℕ) → d ≤ e → weight_of e ≤ weight_of d }
{}
