//! Laws of certificates of a total, proved for all networks and all that is solved of them.

ghost use Rattle.throughput_cmd.specs.Parts.{PartsCanBeWritten};
ghost use Rattle.throughput_cmd.specs.Laws.{SolvedPartsCheck};

/// What is solved of a network can be written with the names of its rows: each number is within the
/// limits of a text, and each row names a commodity, cells or a node.
pub fn parts_can_be_written()
    ensures { PartsCanBeWritten }
{}

/// What `throughput` writes is judged valid by `checkthroughput` on the same rows, with its verdict and
/// its fractions, and nothing else is said of it.
pub fn solved_parts_check()
    ensures { SolvedPartsCheck }
{}
