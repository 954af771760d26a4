//! The names of nodes, links and demands, numbered in the order of the text.

ghost use Rattle.std.specs.Prelude.{◌≡◌, map, IfOk};
ghost use Rattle.sndlib_read.specs.Names.{AreAllNamed};
ghost use Rattle.sndlib_read.specs.Views.{demand_view, kept_view};
ghost use Rattle.sndlib_rows.specs.Names.{AreNamed};
ghost use Rattle.sndlib_rows.specs.Views.{node_view, link_view};

use crate::kept::{DemandWords, Kept};
use indexmap::IndexSet;
use sndlib_rows::{LinkWords, NodeWords, ReadNetEnd, Word, names_of};
use std::alloc::{AllocError, Global};

/// The names of the rows, in order.
#[derive(Drop)]
pub struct Names<'a> {
    /// The ids of the nodes.
    pub nodes: IndexSet<&'a [u8]>,
    /// The ids of the links.
    pub links: IndexSet<&'a [u8]>,
    /// The ids of the demands.
    pub demands: IndexSet<&'a [u8]>,
}

fn node_words<'a>(alloc: Global, nodes: &[NodeWords<'a>]) -> Result<Vec<Word<'a>>, AllocError>
    ensures { IfOk result (λ v. v.items ≡ map (λ n. n.id) nodes.now) }
{
    nodes.iter().map(|n| n.id).collect(alloc)
}

fn link_words<'a>(alloc: Global, links: &[LinkWords<'a>]) -> Result<Vec<Word<'a>>, AllocError>
    ensures { IfOk result (λ v. v.items ≡ map (λ l. l.id) links.now) }
{
    links.iter().map(|l| l.id).collect(alloc)
}

fn demand_words<'a>(alloc: Global, demands: &[DemandWords<'a>]) -> Result<Vec<Word<'a>>, AllocError>
    ensures { IfOk result (λ v. v.items ≡ map (λ d. d.id) demands.now) }
{
    demands.iter().map(|d| d.id).collect(alloc)
}

fn node_names<'a>(alloc: Global, nodes: &[NodeWords<'a>]) -> Result<IndexSet<&'a [u8]>, ReadNetEnd>
    ensures { AreNamed (map (λ n. n.id) (map node_view nodes.now)) result }
{
    match node_words(alloc, nodes) {
        Ok(ids) => names_of(alloc, &ids),
        Err(_) => Err(ReadNetEnd::Memory),
    }
}

fn link_names<'a>(alloc: Global, links: &[LinkWords<'a>]) -> Result<IndexSet<&'a [u8]>, ReadNetEnd>
    ensures { AreNamed (map (λ l. l.id) (map link_view links.now)) result }
{
    match link_words(alloc, links) {
        Ok(ids) => names_of(alloc, &ids),
        Err(_) => Err(ReadNetEnd::Memory),
    }
}

fn demand_names<'a>(
    alloc: Global,
    demands: &[DemandWords<'a>],
) -> Result<IndexSet<&'a [u8]>, ReadNetEnd>
    ensures { AreNamed (map (λ d. d.id) (map demand_view demands.now)) result }
{
    match demand_words(alloc, demands) {
        Ok(ids) => names_of(alloc, &ids),
        Err(_) => Err(ReadNetEnd::Memory),
    }
}

/// The names of all sections, or the first id that an earlier one of its section equals.
pub fn names_of_rows<'a>(alloc: Global, rows: &Kept<'a>) -> Result<Names<'a>, ReadNetEnd>
    ensures { AreAllNamed (kept_view rows.now) result }
{
    let nodes = match node_names(alloc, &rows.nodes) {
        Ok(names) => names,
        Err(e) => return Err(e),
    };
    let links = match link_names(alloc, &rows.links) {
        Ok(names) => names,
        Err(e) => return Err(e),
    };
    match demand_names(alloc, &rows.demands) {
        Ok(demands) => Ok(Names {
            nodes,
            links,
            demands,
        }),
        Err(e) => Err(e),
    }
}
