//! The bound of lengths within hop limits, and that of a cut.

ghost use Rattle.std.specs.Prelude.{◌≡◌, ℕ, ◌≤◌, All, IfOk, length};
ghost use Rattle.mcf_limits.specs.declared.TheConstants.{MAX_LENGTH as MOST};
ghost use Rattle.flow_model.specs.Lengths.{AreLengths};
ghost use Rattle.fixed_exp.specs.Far.{EmptyAreFar};
ghost use Rattle.dual_bound.specs.Bounds.{cut_lengths};
ghost use Rattle.dual_bound.specs.Rows.{dual_of};
ghost use Rattle.hop_paths.specs.Allowed.{AreLimits};
ghost use Rattle.hop_check.specs.Layers.{hop_upper_of};
ghost use Rattle.hop_solve.specs.Run.{HasHopCut, IsHopBoundOf, IsHopCutDual};
ghost use Rattle.hop_solve.specs.Turns.{IsFinder};
ghost use Rattle.hop_solve.specs.Numbers.{hop_dual_of, CanWeigh};

use crate::finder::Finder;
use crate::given::Given;
use crate::layering::{Numbers, all_layers};
use crate::unlimited::{distance_rows, mark_rows};
use dual_bound::{Row, assembled};
use flow_model::Cell;
use flow_paths::{Dual, volume};
use gap_fraction::Frac;
use hop_check::{Layers, hop_weighted_distance};
use std::alloc::{AllocError, Global};

/// Lengths, potentials and layers, and the bound that they give: volume over weighted distance.
#[derive(Drop)]
pub struct HopBound {
    /// The lengths and potentials.
    pub dual: Dual,
    /// The layers.
    pub layers: Layers,
    /// The bound: no routing within the limits carries a greater fraction.
    pub value: Frac,
}

// The dual of these lengths and filled rows, and of these layers, with its value, not reduced. Lengths, and the numbers of
// the rows, are at most 2^62.
fn finished(
    alloc: Global,
    on: &Given<'_>,
    lengths: &[u64],
    rows: &[Row],
    layers: Layers,
) -> Result<HopBound, AllocError>
    requires limits { AreLimits on.now.net.now on.now.limits.now }
    requires rows { All (λ row. All (λ n. n ≤ MOST) row.values.items) rows.now }
    requires weighs { CanWeigh on.now.net.now on.now.limits.now lengths.now
        (record { dual = dual_of lengths.now rows.now; layers = layers }) }
    ensures dual { IfOk result (λ b. hop_dual_of b
        ≡ record { dual = dual_of lengths.now rows.now; layers = layers }) }
    ensures value { IfOk result (λ b. b.value
        ≡ hop_upper_of on.now.net.now on.now.limits.now (hop_dual_of b)) }
{
    let net = on.net;
    let cells = net.cells();
    let dual = assembled(alloc, lengths, rows)?;
    let den = hop_weighted_distance(alloc, net, on.limits, &dual, &layers)?;
    let value = Frac::new(volume(cells, lengths), den);
    Ok(HopBound {
        dual,
        layers,
        value,
    })
}

/// The bound of these lengths: the dual has every cell's length in order, the distance of each node from each source of a
/// commodity without a limit, and in layer i its distance over at most i cells; 2^62 where there is none.
pub fn bound_of(
    alloc: Global,
    on: &Given<'_>,
    lengths: &[u64],
    finder: &mut Finder,
) -> Result<HopBound, AllocError>
    requires limits { AreLimits on.now.net.now on.now.limits.now }
    requires lengths { AreLengths on.now.net.now.cells lengths.now }
    requires empty { EmptyAreFar on.now.net.now.cells lengths.now }
    requires finder { IsFinder on.now.net.now on.now.counts.now finder.old }
    ensures finder { IsFinder on.now.net.now on.now.counts.now finder.new }
    ensures dual { IfOk result (λ b.
        IsHopBoundOf on.now.net.now on.now.limits.now lengths.now (hop_dual_of b)) }
    ensures value { IfOk result (λ b. b.value
        ≡ hop_upper_of on.now.net.now on.now.limits.now (hop_dual_of b)) }
{
    let _nodes = on.net.nodes();
    let rows = distance_rows(alloc, on, lengths)?;
    let layers = all_layers(alloc, on, lengths, finder, Numbers::Lengths)?;
    finished(alloc, on, lengths, &rows, layers)
}

// 1 for a cell without capacity, 0 for every other.
fn lengths_of_cut(alloc: Global, cells: &[Cell]) -> Result<Vec<u64>, AllocError>
    ensures { IfOk result (λ lengths. lengths.items ≡ cut_lengths cells.now) }
{
    let mut lengths = Vec::with_capacity(alloc, cells.len())?;
    for cell in cells {
        lengths.push(u64::from(cell.cap == 0))?;
    }
    Ok(lengths)
}

/// The bound of a network in which some commodity has no allowed walk, 0: a cell without capacity has length 1 and every
/// other 0; potentials and layers have 0 for a node that such a walk from their source leads to, and 1 for every other. The
/// searches for them take the given lengths, whatever they are.
pub fn cut_bound(
    alloc: Global,
    on: &Given<'_>,
    lengths: &[u64],
    finder: &mut Finder,
) -> Result<HopBound, AllocError>
    requires limits { AreLimits on.now.net.now on.now.limits.now }
    requires cut { HasHopCut on.now.net.now on.now.limits.now }
    requires lengths { AreLengths on.now.net.now.cells lengths.now }
    requires finder { IsFinder on.now.net.now on.now.counts.now finder.old }
    ensures dual { IfOk result (λ b.
        IsHopCutDual on.now.net.now on.now.limits.now (hop_dual_of b)) }
    ensures value { IfOk result (λ b. b.value
        ≡ hop_upper_of on.now.net.now on.now.limits.now (hop_dual_of b)) }
{
    let rows = mark_rows(alloc, on)?;
    let layers = all_layers(alloc, on, lengths, finder, Numbers::Marks)?;
    let cut = lengths_of_cut(alloc, on.net.cells())?;
    finished(alloc, on, &cut, &rows, layers)
}
