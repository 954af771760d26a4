//! A tournament tree of ratios.

ghost use Rattle.std.specs.Prelude.{◌≡◌, ◌≢◌, ◌+◌, ◌*◌, ◌<◌, ◌≤◌, ◌++◌, ℕ, All, IfOk, length, drop, replicate, slice_set};
ghost use Rattle.whatif.specs.Ratios.{IsRatio};
ghost use Rattle.whatif.specs.Tournament.{IsFirstLeast, IsPlayed, IsTournament, IsWon};

use crate::ratio::{Ratio, winner};
use mcf_limits::MAX_CELLS;
use std::alloc::{AllocError, Global};
use std::marker::Model;

// What stands at place 0, which is no node.
const UNUSED: Ratio = Ratio {
    cap: 1,
    load: 0,
    cell: 0,
};

/// Ratios as the leaves of a tree, each node of which is the winner of the two below it. It is seen as its leaves.
///
/// Node 1 is the root, the nodes below node i are 2 i and 2 i + 1, and the leaves are the nodes from `leaves` on.
#[derive(Drop)]
pub struct Tree {
    nodes: Vec<Ratio>,
    leaves: usize,
}

impl Model for Tree {
    ghost use Rattle.std.specs.Prelude.{List, drop, ◌≤◌};
    ghost use Rattle.mcf_limits.specs.declared.TheConstants.{MAX_CELLS};
    ghost use Rattle.whatif.specs.declared.ratio.Ratio.{Ratio};
    ghost use Rattle.whatif.specs.Tournament.{IsTournament};

    ghost Value = { List Ratio };

    ghost view = { λ t. drop t.leaves t.nodes.items };

    ghost invariant = { λ t. IsTournament t.leaves t.nodes.items × (t.leaves ≤ MAX_CELLS) };
}

// Makes a node the winner of the two below it.
fn play(nodes: &mut [Ratio], i: usize)
    requires some { 1 ≤ i }
    requires below { 2 * i + 1 < length nodes.old }
    requires small { length nodes.old ≤ 2 * MAX_CELLS }
    requires ratios { All IsRatio nodes.old }
    ensures played { IsPlayed nodes.old nodes.new i }
    ensures ratios { All IsRatio nodes.new }
{
    nodes[i] = winner(nodes[2 * i], nodes[2 * i + 1]);
}

// Makes every node but the leaves the winner of the two below it.
fn settle(nodes: &mut [Ratio], leaves: usize)
    requires count { length nodes.old ≡ 2 * leaves }
    requires small { leaves ≤ MAX_CELLS }
    requires ratios { All IsRatio nodes.old }
    ensures tournament { IsTournament leaves nodes.new }
    ensures leaves { drop leaves nodes.new ≡ drop leaves nodes.old }
{
    for k in 1..leaves {
        play(nodes, leaves - k);
    }
}

// Makes the nodes above a leaf winners of the two below them.
fn mend(nodes: &mut [Ratio], leaves: usize, leaf: usize)
    requires count { length nodes.old ≡ 2 * leaves }
    requires small { leaves ≤ MAX_CELLS }
    requires leaf { leaves ≤ leaf }
    requires within { leaf < 2 * leaves }
    requires ratios { All IsRatio nodes.old }
    requires others { (i : ℕ) → 1 ≤ i → i < leaves → 2 * i ≢ leaf → 2 * i + 1 ≢ leaf → IsWon nodes.old i }
    ensures tournament { IsTournament leaves nodes.new }
    ensures leaves { drop leaves nodes.new ≡ drop leaves nodes.old }
{
    let mut i = leaf;
    'up: while i > 1 {
        i /= 2;
        play(nodes, i);
    }
}

impl Tree {
    /// The tree of these leaves.
    pub fn new(alloc: Global, ratios: &[Ratio]) -> Result<Self, AllocError>
        requires few { length ratios.now ≤ MAX_CELLS }
        requires ratios { All IsRatio ratios.now }
        ensures { IfOk result (λ t. t ≡ ratios.now) }
    {
        let leaves = ratios.len();
        let mut nodes = vec![in alloc; UNUSED; leaves]?;
        nodes.extend_from_slice(ratios)?;
        settle(&mut nodes, leaves);
        Ok(Tree { nodes, leaves })
    }

    /// A tree of its own with the same leaves.
    pub fn copy(&self, alloc: Global) -> Result<Self, AllocError>
        ensures { IfOk result (λ t. t ≡ self.now) }
    {
        Ok(Tree {
            nodes: Vec::from_slice(alloc, &self.nodes)?,
            leaves: self.leaves,
        })
    }

    /// Puts another ratio at that leaf. It takes no memory, and mends the one path from the leaf to the root.
    pub fn set(&mut self, leaf: usize, ratio: Ratio)
        requires leaf { leaf < length self.old }
        requires ratio { IsRatio ratio }
        ensures { self.new ≡ slice_set self.old leaf ratio }
    {
        let place = self.leaves + leaf;
        self.nodes[place] = ratio;
        mend(&mut self.nodes, self.leaves, place);
    }

    /// The first ratio of least value.
    pub fn top(&self) -> Ratio
        requires { 0 < length self.now }
        ensures least { IsFirstLeast self.now result }
        ensures ratio { IsRatio result }
    {
        self.nodes[1]
    }
}
