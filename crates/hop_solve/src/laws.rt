//! Laws of runs within hop limits, proved for all networks.

ghost use Rattle.hop_solve.specs.Laws.{HopBoundIsFirst, HopRunsAreValid};

/// The proof of a run is valid: the ten conditions of a certificate with hop limits hold of it.
pub fn hop_runs_are_valid()
    ensures { HopRunsAreValid }
{}

/// Of the bounds of a run's phases its certificate has the first of the least: none is below it, and all before it are above it.
pub fn hop_bound_is_first_of_the_least()
    ensures { HopBoundIsFirst }
{}
