//! Laws of hop limits and their certificates, proved for all networks.

ghost use Rattle.hop_check.specs.Laws.{DistancesBoundWithin, LayersBoundRoutings, ValidHopsCertify};

/// Whatever the lengths: distances that no walk within its limit is shorter than bound the fraction of every routing within the
/// limits, by volume over weighted distance.
pub fn distances_bound_within()
    ensures { DistancesBoundWithin }
{}

/// Whatever the lengths, the layers and the potentials: so do the distances that layers give to commodities with a limit, and
/// potentials to those without.
pub fn layers_bound_routings()
    ensures { LayersBoundRoutings }
{}

/// A valid certificate is sound: its routing is feasible at the lower fraction within the limits of hops, its lengths and
/// layers bound the fraction of every such routing, and closed says whether the two lie within the gap.
pub fn valid_hops_certify()
    ensures { ValidHopsCertify }
{}
