//! Laws, each proved for all networks, certificates and links.

ghost use Rattle.sweep.specs.Laws.{ClosedIsBounded, ClosedIsFeasible, EvaluationIsClosing};

/// An evaluation with a link closed, from the network's own capacities, is what the certificate is worth on the network that
/// has the link's cells at capacity 0.
pub fn evaluation_is_closing()
    ensures { EvaluationIsClosing }
{}

/// The upper fraction with a link closed bounds every routing on the network with that link closed.
pub fn closed_is_bounded()
    ensures { ClosedIsBounded }
{}

/// Where there are phases, the certificate's paths carry the lower fraction on the network with the link closed.
pub fn closed_is_feasible()
    ensures { ClosedIsFeasible }
{}
