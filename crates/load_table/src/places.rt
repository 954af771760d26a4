//! Where in the table the words lie.

ghost use Rattle.std.specs.Prelude.{◌≡◌, ◌+◌, ◌≤◌};
ghost use Rattle.load_table.specs.Places.{place};

use mcf_limits::MAX_CELLS;

/// The most cells whose words lie apart.
pub const FEW_CELLS: usize = 512;

// Words at this distance share no cache line. Processors pass cache lines on whole, and one that adds to a word has to wait for its
// line: so workers of a small network, who add to the same few words all the time, wait less where words lie apart. But at each
// claim a worker reads the words of all cells, and apart they are on eight times as many lines: on a large network, whose workers
// seldom meet at a word, that costs more than the waiting. So words of many cells lie side by side, a line's length after the word
// of claims, to which all workers add.
const APART: usize = 8;

/// The place of a cell's word.
#[inline(always)]
pub(crate) fn place_of(wide: bool, cell: usize) -> usize
    requires { cell ≤ MAX_CELLS }
    ensures { result ≡ place wide (cell + 1) }
{
    if wide {
        APART * cell + APART
    } else {
        cell + APART
    }
}
