//! Laws of totals and their certificates, proved for all networks.

ghost use Rattle.throughput.specs.Laws.{PartBoundIsFirst, ThresholdBoundsTotals, ThroughputRunsAreValid, ValidPartsCertify};

/// Whatever the threshold: the total of a partial routing times the threshold is at most the volume of any lengths and
/// what the threshold has above any distances that are not above its walks.
pub fn threshold_bounds_totals()
    ensures { ThresholdBoundsTotals }
{}

/// A valid certificate is sound: its routing carries at most every amount within every capacity, its total is the lower
/// fraction, its threshold bounds the total of every such routing, and closed says whether the two lie within the gap.
pub fn valid_parts_certify()
    ensures { ValidPartsCertify }
{}

/// The certificate of a run for the greatest total is valid.
pub fn throughput_runs_are_valid()
    ensures { ThroughputRunsAreValid }
{}

/// Of the bounds of a run's phases its certificate has the first of the least: none is below it, and all before it are above it.
pub fn total_bound_is_first_of_the_least()
    ensures { PartBoundIsFirst }
{}
