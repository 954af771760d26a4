//! Laws of scaling, each as a function that does nothing.

ghost use Rattle.std.specs.Prelude.{◌≡◌, ◌^◌, List, ℕ};
ghost use Rattle.mcf_limits.specs.declared.TheConstants.{MAX_DECIMALS};
ghost use Rattle.unit_scale.specs.Sizes.{AreDecimals, decimals_of};
ghost use Rattle.unit_scale.specs.declared.short.TheConstants.{MILLIONTHS};

/// The decimals of a network are the least number that serves all its capacities and amounts.
pub fn decimals_are_least()
    ensures { (all : List ℕ) → AreDecimals all (decimals_of all) }
{}

/// There is one such number.
pub fn decimals_are_unique()
    ensures { (all : List ℕ) (s : ℕ) → AreDecimals all s → s ≡ decimals_of all }
{}

/// The millionths in one are the finest units that a number may have: as many as `MAX_DECIMALS` decimals tell apart.
pub fn millionths_are_the_finest()
    ensures { MILLIONTHS ≡ 10 ^ MAX_DECIMALS }
{}
