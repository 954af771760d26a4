//! The rows that a commodity's paths had in its last phases. They are hints: no contract speaks of them.

ghost use Rattle.std.specs.Prelude.{⊤, ◌<◌, MatchOption};
ghost use Rattle.flow_solver.specs.Rows.{IsRowOf};

use flow_paths::PathStore;
use std::alloc::{AllocError, Global};
use std::hint::select_unpredictable;

// How many rows of a commodity are noted in each set.
const ROWS_OF_A_SET: usize = 8;

const SETS: usize = 4;

// A row number that stands for none.
const NO_ROW: u32 = u32::MAX;

// Some rows of a commodity, each with the mark of its path, which lie side by side.
#[derive(Clone, Copy)]
struct NotedSet {
    marks: [u32; ROWS_OF_A_SET],
    rows: [u32; ROWS_OF_A_SET],
}

/// Rows of a commodity, in sets by the marks of their paths, and the place of the next one in each. They are hints: a row is looked at
/// before it is taken.
#[derive(Clone, Copy)]
pub struct NotedRows {
    sets: [NotedSet; SETS],
    next: [u8; SETS],
}

impl NotedRows {
    /// No rows.
    pub fn new() -> Self {
        let none = NotedSet {
            marks: [0; ROWS_OF_A_SET],
            rows: [NO_ROW; ROWS_OF_A_SET],
        };
        NotedRows {
            sets: [none; SETS],
            next: [0; SETS],
        }
    }

    /// The last row with the mark of this path.
    pub(crate) fn row_of(&self, path: &[u16]) -> u32 {
        let mark = mark_of(path);
        let set = &self.sets[set_of(mark)];
        let mut found = NO_ROW;
        for place in 0..ROWS_OF_A_SET {
            // which of them it is follows no pattern
            found = select_unpredictable(set.marks[place] == mark, set.rows[place], found);
        }
        found
    }

    /// Notes a row of this path, in the place of that which was noted first in its set.
    pub(crate) fn note(&mut self, path: &[u16], row: u32) {
        let mark = mark_of(path);
        let at = set_of(mark);
        let place = self.next[at] as usize % ROWS_OF_A_SET;
        let set = &mut self.sets[at];
        set.marks[place] = mark;
        set.rows[place] = row;
        self.next[at] = (place as u8 + 1) % ROWS_OF_A_SET as u8;
    }
}

// The set of a mark, by bits of it that all of its cells have a part in.
#[inline(always)]
fn set_of(mark: u32) -> usize
    ensures { result < SETS }
{
    (mark >> 16) as usize % SETS
}

// A mark of a path: others mostly have another one. It is made of five of its cells and their number alone, so that it takes the
// same short time for each path.
#[inline(always)]
fn mark_of(path: &[u16]) -> u32 {
    let count = path.len();
    if count == 0 {
        return 0;
    }
    [
        path[0],
        path[count / 4],
        path[count / 2],
        path[count / 2 + count / 4],
        path[count - 1],
    ]
    .iter()
    .fold((count % 512) as u32, |mark, cell| {
        mark.wrapping_mul(0x9e37_79b1)
            .wrapping_add(u32::from(*cell))
    })
}

/// The row that the path of each commodity had last, and the rows that its paths had in the last phases, among which a path is looked
/// for where the last row is of another path. The last rows are a list of their own: most commodities need no more, and so they lie
/// close together.
#[derive(Drop)]
pub struct Sought {
    /// The number of the row that each commodity had last.
    pub last: Vec<u32>,
    /// The rows that each commodity had in the last phases.
    pub noted: Vec<NotedRows>,
}

impl Sought {
    ghost use Rattle.std.specs.Prelude.{◌≡◌, OnOk, length};

    /// Nothing was found, of no commodity.
    pub fn new(alloc: Global) -> Self {
        Sought {
            last: Vec::new(alloc),
            noted: Vec::new(alloc),
        }
    }

    /// Makes room for `count` commodities, where the room is for another number.
    pub(crate) fn make_room(&mut self, alloc: Global, count: usize) -> Result<(), AllocError>
        ensures last { OnOk result (length self.new.last.items ≡ count) }
        ensures noted { OnOk result (length self.new.noted.items ≡ count) }
    {
        if self.last.len() != count || self.noted.len() != count {
            self.last = vec![in alloc; NO_ROW; count]?;
            self.noted = vec![in alloc; NotedRows::new(); count]?;
        }
        Ok(())
    }
}

/// The row of that number, if it is there and is of this commodity and path.
#[inline(always)]
pub(crate) fn noted_row(paths: &PathStore, row: u32, k: u32, path: &[u16]) -> Option<u32>
    ensures { MatchOption result ⊤ (IsRowOf paths.now k path.now) }
{
    if row < paths.rows() && paths.has_path(row, k, path) {
        Some(row)
    } else {
        None
    }
}
