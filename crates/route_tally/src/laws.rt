//! Laws of tallies, each proved for all turns.

ghost use Rattle.route_tally.specs.Tally.{TallyIsItsTurns, RowsAreTheirTurns, TallyIsUnique, WeightsAreCounted};

/// A tally carries of every commodity, loads every cell with, and weighs in all what its turns do.
pub fn tally_is_its_turns()
    ensures { TallyIsItsTurns }
{}

/// Rows in any order, as a `Tally` has them, carry, load and weigh the same as the turns.
pub fn rows_are_their_turns()
    ensures { RowsAreTheirTurns }
{}

/// Where each turn routes the same amount for its commodity, a row's weight is that amount for each turn along it.
pub fn weights_are_counted()
    ensures { WeightsAreCounted }
{}

/// Turns have one tally.
pub fn tally_is_unique()
    ensures { TallyIsUnique }
{}
