//! Arcs over positive cells, in one list by node.

ghost use Rattle.std.specs.Prelude.{◌≡◌, ◌⊎◌, ◌↔◌, ℕ, All, Contains, ◌++◌, ◌<◌, ◌≤◌, length, map, slice_range, OnOk, IfOk, IsTrue};
ghost use Rattle.std.specs.Option.{option_to_list};
ghost use Rattle.flow_model.specs.Network.{IsNetwork};
ghost use Rattle.flow_model.specs.Walk.{PassesOver};
ghost use Rattle.dijkstra_paths.specs.Arcs.{arcs_over, arcs_from, ends_of};
ghost use Rattle.dijkstra_paths.specs.Tree.{GoBothWays};

use flow_model::{Cell, Net};
use mcf_limits::MAX_CELLS;
use std::alloc::{AllocError, Global};
use std::hint::select_unpredictable;
use std::marker::Model;
use std::snapshot::Snapshot;

/// A way over a positive cell.
#[derive(Clone, Copy, Debug, PartialEq, Eq)]
pub struct Arc {
    /// The number of the cell.
    pub cell: u16,
    /// The node where it ends.
    pub to: u16,
}

/// The nodes that a cell joins. One without capacity joins its tail to itself, which is no way to another node.
#[derive(Clone, Copy)]
pub struct CellEnds {
    /// The node where it begins.
    pub tail: u16,
    /// The node where it ends.
    pub head: u16,
}

/// The arcs of a network. It is seen as that network.
#[derive(Drop)]
pub struct Graph {
    net: Snapshot<Net>,
    nodes: u16,
    goes_back: bool,
    cells: Vec<Cell>,
    ends: Vec<CellEnds>,
    first: Vec<u32>,
    arcs: Vec<Arc>,
}

impl Model for Graph {
    ghost use Rattle.std.specs.Prelude.{◌≡◌, ◌↔◌, IsTrue};
    ghost use Rattle.flow_model.specs.Network.{Network, IsNetwork};

    ghost Value = { Network };

    ghost use Rattle.std.specs.Prelude.{map};
    ghost use Rattle.dijkstra_paths.specs.Arcs.{AreArcs, ends_of};
    ghost use Rattle.dijkstra_paths.specs.Tree.{GoBothWays};

    ghost view = { λ g. g.net.value };

    ghost invariant = { λ g. IsNetwork g.net.value × (g.nodes ≡ g.net.value.nodes) ×
        AreArcs g.net.value.cells g.net.value.nodes g.first.items g.arcs.items ×
        (g.cells.items ≡ g.net.value.cells) × (g.ends.items ≡ map ends_of g.net.value.cells) ×
        (IsTrue g.goes_back ↔ GoBothWays g.net.value.cells) };
}

// The arc over this cell from the node, if one may go over it from there.
fn arc_of(cell: &Cell, number: u16, from: u16) -> Option<Arc>
    ensures { option_to_list result ≡ arcs_over cell.now number from }
{
    if cell.cap == 0 {
        None
    } else if cell.tail == from {
        Some(Arc {
            cell: number,
            to: cell.head,
        })
    } else if cell.both && cell.head == from {
        Some(Arc {
            cell: number,
            to: cell.tail,
        })
    } else {
        None
    }
}

// Whether each cell goes both ways.
fn go_both_ways(cells: &[Cell]) -> bool
    ensures { IsTrue result ↔ GoBothWays cells.now }
{
    cells.iter().all(|cell| cell.both)
}

// The ends of a cell.
fn ends_of(cell: &Cell) -> CellEnds
    ensures { result ≡ ends_of cell.now }
{
    let head = if cell.cap == 0 { cell.tail } else { cell.head };
    CellEnds {
        tail: cell.tail,
        head,
    }
}

// Whether one goes from one node to the other over a cell with these ends, which is open back too if `both`.
#[inline(always)]
fn leads(ends: CellEnds, both: bool, from: u16, to: u16) -> bool
    ensures { IsTrue result → ((from ≡ ends.tail) × (to ≡ ends.head))
        ⊎ (IsTrue both × (from ≡ ends.head) × (to ≡ ends.tail)) }
{
    // no branch on the way that is taken over a cell of both ways, which follows no pattern
    let ahead = ends.tail == from;
    let first = select_unpredictable(ahead, ends.tail, ends.head);
    let last = select_unpredictable(ahead, ends.head, ends.tail);
    first == from && last == to && (both || ahead)
}

// The ends of each cell.
fn all_ends(alloc: Global, cells: &[Cell]) -> Result<Vec<CellEnds>, AllocError>
    ensures { IfOk result (λ ends. ends.items ≡ map ends_of cells.now) }
{
    let mut ends = Vec::with_capacity(alloc, cells.len())?;
    for cell in cells {
        ends.push(ends_of(cell))?;
    }
    Ok(ends)
}

// Appends the arcs from a node, in the order of cells.
fn append_arcs(cells: &[Cell], from: u16, arcs: &mut Vec<Arc>) -> Result<(), AllocError>
    requires { length cells.now ≤ MAX_CELLS }
    ensures { OnOk result (arcs.new.items ≡ arcs.old.items ++ arcs_from cells.now 0 from) }
{
    for (number, cell) in cells.iter().enumerate() {
        if let Some(arc) = arc_of(cell, number as u16, from) {
            arcs.push(arc)?;
        }
    }
    Ok(())
}

// The arcs from one place up to another.
#[inline(always)]
fn part(arcs: &[Arc], start: usize, end: usize) -> &[Arc]
    requires start { start ≤ end }
    requires end { end ≤ length arcs.now }
    ensures { result.now ≡ slice_range arcs.now start end }
{
    &arcs[start..end]
}

impl Graph {
    pub fn new(alloc: Global, net: &Net) -> Result<Self, AllocError>
        ensures { IfOk result (λ g. g ≡ net.now) }
    {
        let cells = net.cells();
        let mut first = Vec::new(alloc);
        let mut arcs = Vec::new(alloc);
        for from in 0..net.nodes() {
            first.push(arcs.len() as u32)?;
            append_arcs(cells, from, &mut arcs)?;
        }
        first.push(arcs.len() as u32)?;
        Ok(Graph {
            net: Snapshot::of(net),
            nodes: net.nodes(),
            goes_back: go_both_ways(cells),
            cells: Vec::from_slice(alloc, cells)?,
            ends: all_ends(alloc, cells)?,
            first,
            arcs,
        })
    }

    pub fn nodes(&self) -> u16
        ensures value { result ≡ self.now.nodes }
        ensures net { IsNetwork self.now }
    {
        self.nodes
    }

    /// Whether each cell goes both ways.
    #[inline(always)]
    pub(crate) fn goes_both_ways(&self) -> bool
        ensures { IsTrue result ↔ GoBothWays self.now.cells }
    {
        self.goes_back
    }

    /// The cells of the network.
    #[inline(always)]
    pub(crate) fn cells(&self) -> &[Cell]
        ensures value { result.now ≡ self.now.cells }
        ensures net { IsNetwork self.now }
    {
        &self.cells
    }

    /// The ends of the cells.
    #[inline(always)]
    pub(crate) fn ends(&self) -> &[CellEnds]
        ensures value { result.now ≡ map ends_of self.now.cells }
        ensures net { IsNetwork self.now }
    {
        &self.ends
    }

    /// Whether this is a positive cell over which one may go from one node to another.
    #[inline(always)]
    pub(crate) fn passes(&self, cell: u16, from: u16, to: u16) -> bool
        ensures way { IsTrue result → PassesOver self.now.cells cell from to }
        ensures net { IsNetwork self.now }
    {
        let at = cell as usize;
        if at >= self.ends.len() {
            return false;
        }
        let ends = self.ends[at];
        from != to
            && (leads(ends, self.goes_back, from, to) || leads(ends, self.cells[at].both, from, to))
    }

    // The node's part of the list.
    #[inline(always)]
    fn arcs_at(&self, from: u16) -> &[Arc]
        requires { from < self.now.nodes }
        ensures value { result.now ≡ arcs_from self.now.cells 0 from }
        ensures over { All (λ arc. PassesOver self.now.cells arc.cell from arc.to) result.now }
        ensures each { (c x : ℕ) → PassesOver self.now.cells c from x
            → Contains result.now (record { cell = c; to = x }) }
        ensures net { IsNetwork self.now }
    {
        let at = from as usize;
        let first = self.first.as_slice();
        let start = first[at] as usize;
        let end = first[at + 1] as usize;
        part(&self.arcs, start, end)
    }

    /// Every way from the node over a positive cell, in the order of cells.
    /// A cell from the node to itself stands once.
    #[inline(always)]
    pub fn out(&self, from: u16) -> &[Arc]
        requires { from < self.now.nodes }
        ensures value { result.now ≡ arcs_from self.now.cells 0 from }
        ensures over { All (λ arc. PassesOver self.now.cells arc.cell from arc.to) result.now }
        ensures each { (c x : ℕ) → PassesOver self.now.cells c from x
            → Contains result.now (record { cell = c; to = x }) }
        ensures net { IsNetwork self.now }
    {
        self.arcs_at(from)
    }
}
