//! A network that is drawn: its nodes in a ring, and links between any two.

ghost use Rattle.std.specs.Prelude.{◌≡◌, ◌≤◌, All, IfOk, length};
ghost use Rattle.flow_model.specs.Network.{IsCell};

use crate::drawn::Words;
use crate::networks::{cell, demand};
use flow_model::{Cell, Net};
use mcf_limits::{MAX_CELLS, MAX_NODES};
use std::alloc::{AllocError, Global};

// A link of the ring, or one between any two nodes.
fn ring_cell(words: &mut Words, i: u64, nodes: u64) -> Cell
    requires low { 2 ≤ nodes }
    requires high { nodes ≤ MAX_NODES }
    ensures { IsCell nodes result }
{
    let (tail, head) = if i < nodes {
        (i, (i + 1) % nodes)
    } else {
        let a = words.below(nodes);
        (a, (a + 1 + words.below(nodes - 1)) % nodes)
    };
    cell(tail as u16, head as u16, true, 1 + words.below(1000))
}

fn ring_cells(
    alloc: Global,
    words: &mut Words,
    nodes: u64,
    links: u64,
) -> Result<Vec<Cell>, AllocError>
    requires low { 2 ≤ nodes }
    requires high { nodes ≤ MAX_NODES }
    ensures count { IfOk result (λ v. length v.items ≡ links) }
    ensures fit { IfOk result (λ v. All (IsCell nodes) v.items) }
{
    let mut cells = Vec::new(alloc);
    for i in 0..links {
        cells.push(ring_cell(words, i, nodes))?;
    }
    Ok(cells)
}

/// A network of `nodes` nodes in a ring, with `links` further links between any two, and one demand.
pub fn ring_network(
    alloc: Global,
    words: &mut Words,
    nodes: u64,
    links: u64,
) -> Result<Net, AllocError>
    requires low { 2 ≤ nodes }
    requires high { nodes ≤ MAX_NODES }
    requires links { links ≤ MAX_CELLS }
    ensures nodes { IfOk result (λ n. n.nodes ≡ nodes) }
    ensures cells { IfOk result (λ n. length n.cells ≡ links) }
{
    let cells = ring_cells(alloc, words, nodes, links)?;
    let commodities = vec![in alloc; demand(0, 1, 1)]?;
    Ok(Net::new(nodes as u16, cells, commodities))
}
