//! Laws of certificates with hop limits, proved for all networks and all that is solved of them.

ghost use Rattle.hops_cmd.specs.Hops.{HopsCanBeWritten};
ghost use Rattle.hops_cmd.specs.Laws.{SolvedHopsCheck};

/// What is solved of a network can be written with the names of its rows: each number is within the
/// limits of a text, and each row names a commodity, cells or a node.
pub fn hops_can_be_written()
    ensures { HopsCanBeWritten }
{}

/// What `hops` writes is judged valid by `checkhops` on the same rows, with its verdict and its
/// fractions, and nothing else is said of it.
pub fn solved_hops_check()
    ensures { SolvedHopsCheck }
{}
