//! Laws of cuts, each proved for all networks.

ghost use Rattle.flow_paths.specs.DualRows.{DualRows};
ghost use Rattle.cut_bound.specs.Least.{LeastIsFirst};
ghost use Rattle.cut_bound.specs.Laws.{BestIsNotAbove, CutDualIsItsValue, CutDualsAreValid, CutsBoundRoutings, TightenedIsBest, TightenedIsFirst, TightenedIsSmall, TightenedIsUnique, TightenedRoutingIsFirst, TightenedStays};

/// The dual of a cut that some commodity crosses meets the conditions of a certificate on lengths and potentials.
pub fn cut_duals_are_valid()
    ensures { CutDualsAreValid }
{}

/// The bound of a cut's dual is what leaves the side over who crosses.
pub fn cut_dual_is_its_value()
    ensures { CutDualIsItsValue }
{}

/// No routing carries more of every amount than leaves a side over who crosses from it (weak duality).
pub fn cuts_bound_routings()
    ensures { CutsBoundRoutings }
{}

/// The best bound is not above that of any dual that was there.
pub fn best_is_not_above()
    ensures { BestIsNotAbove }
{}

/// Of duals none of which divides by 0, `least_by` is the first of the least: none is below it, and all before it are above
/// it.
pub fn least_is_first()
    ensures { LeastIsFirst DualRows }
{}

/// What is tightened of valid certificates is valid, and no worse than any of them: its lower fraction is not below, and its
/// upper one not above.
pub fn tightened_is_best()
    ensures { TightenedIsBest }
{}

/// Its dual is the first of the least of the candidates that they give: their own, the cuts round each node, and the fronts of
/// their rows. It is one of them, none is below it, and all before it are above it.
pub fn tightened_is_first()
    ensures { TightenedIsFirst }
{}

/// Its routing is the first of those that carry the greatest fraction: none carries more, and all before it carry less.
pub fn tightened_routing_is_first()
    ensures { TightenedRoutingIsFirst }
{}

/// Where the lengths and potentials of each certificate are within the limit of a text, those of what is tightened are: they are
/// those of one of them, or the 0 and 1 of a cut.
pub fn tightened_is_small()
    ensures { TightenedIsSmall }
{}

/// There is one certificate that is tightened of others.
pub fn tightened_is_unique()
    ensures { TightenedIsUnique }
{}

/// What is tightened stays as it is when it is tightened again.
pub fn tightened_stays()
    ensures { TightenedStays }
{}
