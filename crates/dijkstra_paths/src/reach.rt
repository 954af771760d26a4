//! What is reached over positive cells.

ghost use Rattle.std.specs.Prelude.{◌≡◌, ◌↔◌, ℕ, ◌<◌, All, length, OnOk, IfOk, IsTrue, MatchOption, false, []};
ghost use Rattle.flow_model.specs.Least.{HasNoCut, IsJoined};
ghost use Rattle.dijkstra_paths.specs.Reach.{AreReached, AreRows, IsFirstCut, MarksEnds, end_at, mark_at};

use crate::graph::{Arc, Graph};
use flow_model::Net;
use std::alloc::{AllocError, Global};

// Marks the ends of the arcs, and appends those that were not marked before to the nodes found.
fn mark_ends(arcs: &[Arc], marks: &mut [bool], found: &mut Vec<u16>) -> Result<(), AllocError>
    requires { All (λ arc. arc.to < length marks.old) arcs.now }
    ensures marks { OnOk result (MarksEnds arcs.now marks.old marks.new found.old.items found.new.items) }
    ensures all { OnOk result ((k : ℕ) → k < length arcs.now → IsTrue (mark_at marks.new (end_at arcs.now k))) }
{
    for arc in arcs {
        let to = arc.to as usize;
        if !marks[to] {
            marks[to] = true;
            found.push(arc.to)?;
        }
    }
    Ok(())
}

// A mark for each node, none of them set.
fn no_marks(alloc: Global, nodes: u16) -> Result<Vec<bool>, AllocError>
    ensures count { IfOk result (λ marks. length marks.items ≡ nodes) }
    ensures off { IfOk result (λ marks. (v : ℕ) → mark_at marks.items v ≡ false) }
{
    vec![in alloc; false; nodes as usize]
}

// A row for each node, none of them filled.
fn no_rows(alloc: Global, nodes: u16) -> Result<Vec<Vec<bool>>, AllocError>
    ensures count { IfOk result (λ rows. length rows.items ≡ nodes) }
    ensures empty { IfOk result (λ rows. All (λ row. row.items ≡ []) rows.items) }
{
    let mut rows = Vec::with_capacity(alloc, nodes as usize)?;
    for _ in 0..nodes {
        rows.push(Vec::new(alloc))?;
    }
    Ok(rows)
}

impl Graph {
    /// Which nodes have a walk from the node over positive cells: one mark for each node.
    pub fn reach(&self, alloc: Global, from: u16) -> Result<Vec<bool>, AllocError>
        requires { from < self.now.nodes }
        ensures count { IfOk result (λ marks. length marks.items ≡ self.now.nodes) }
        ensures reached { IfOk result (λ marks. AreReached self.now.cells from marks.items) }
    {
        let mut marks = no_marks(alloc, self.nodes())?;
        let mut found = Vec::with_capacity(alloc, self.nodes() as usize)?;
        marks[from as usize] = true;
        found.push(from)?;
        let mut next = 0;
        while next < found.len() {
            let node = found[next];
            mark_ends(self.out(node), &mut marks, &mut found)?;
            next += 1;
        }
        Ok(marks)
    }

    // Whether a walk over positive cells leads from one node to another. Each node is searched from at most once:
    // its marks are kept in its row.
    fn is_joined(
        &self,
        alloc: Global,
        rows: &mut [Vec<bool>],
        from: u16,
        to: u16,
    ) -> Result<bool, AllocError>
        requires rows { AreRows self.now rows.old }
        requires from { from < self.now.nodes }
        requires to { to < self.now.nodes }
        ensures rows { OnOk result (AreRows self.now rows.new) }
        ensures value { IfOk result (λ joined. IsTrue joined ↔ IsJoined self.now.cells from to) }
    {
        if rows[from as usize].is_empty() {
            rows[from as usize] = self.reach(alloc, from)?;
        }
        Ok(rows[from as usize][to as usize])
    }

    /// The first commodity without a walk over positive cells, or `None` where each has one.
    /// The network is the one that the graph was made from. There is at most one search for each source.
    pub fn first_cut(&self, alloc: Global, net: &Net) -> Result<Option<u32>, AllocError>
        requires { net.now ≡ self.now }
        ensures { IfOk result (λ cut. MatchOption cut (HasNoCut net.now) (IsFirstCut net.now)) }
    {
        let mut rows = no_rows(alloc, self.nodes())?;
        for (k, commodity) in net.commodities().iter().enumerate() {
            if !self.is_joined(alloc, &mut rows, commodity.from, commodity.to)? {
                return Ok(Some(k as u32));
            }
        }
        Ok(None)
    }
}
