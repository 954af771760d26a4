//! Why rows give no network.

ghost use Rattle.std.specs.Prelude.{◌≡◌};
ghost use Rattle.unit_scale.specs.Sorts.{end_at};

use sndlib_rows::{NetKind, NetRefusal};

/// Why rows give no network: they are refused, or memory ran out.
#[derive(Clone, Copy, Debug, PartialEq, Eq)]
pub enum ScaleEnd {
    /// A row is refused.
    Refused(NetRefusal),
    /// Memory ran out.
    Memory,
}

/// The refusal of that kind at that line.
pub fn refused(kind: NetKind, line: u32) -> ScaleEnd
    ensures { result ≡ ScaleEnd.Refused (record { line = line; kind = kind }) }
{
    ScaleEnd::Refused(NetRefusal { line, kind })
}

/// The sort of row at which rows are refused: a link, a demand, or none of them, at the end.
#[derive(Clone, Copy, Debug, PartialEq, Eq)]
pub enum RowSort {
    /// A link.
    Link,
    /// A demand.
    Demand,
    /// None: what is wrong is known at the end alone.
    End,
}

/// A refusal, and the sort of row at which it lies.
#[derive(Clone, Copy, Debug, PartialEq, Eq)]
pub struct RowRefusal {
    /// The sort of the row.
    pub sort: RowSort,
    /// What is wrong, and the line.
    pub refusal: NetRefusal,
}

/// Why rows give no network: they are refused at a row of some sort, or memory ran out.
#[derive(Clone, Copy, Debug, PartialEq, Eq)]
pub enum RowEnd {
    /// A row is refused.
    Refused(RowRefusal),
    /// Memory ran out.
    Memory,
}

/// The end of a stage that looks at rows of that sort.
pub fn at_row(sort: RowSort, end: ScaleEnd) -> RowEnd
    ensures { result ≡ end_at sort end }
{
    match end {
        ScaleEnd::Refused(refusal) => RowEnd::Refused(RowRefusal { sort, refusal }),
        ScaleEnd::Memory => RowEnd::Memory,
    }
}
