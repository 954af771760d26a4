//! The part of a network that its demands do not touch.

use crate::ends::Ends;
use crate::kept::{LinkWords, NodeWords};
use indexmap::IndexSet;

/// Nodes and links with their names, the number of skipped sections and the line of the end. Networks that differ in their demands alone share it.
#[derive(Drop)]
pub struct NetPart<'a> {
    /// The nodes, in their order.
    pub nodes: Vec<NodeWords<'a>>,
    /// The links, in their order.
    pub links: Vec<LinkWords<'a>>,
    /// The numbers of the ends of each link.
    pub link_ends: Vec<Ends>,
    /// The ids of the nodes, in their order.
    pub node_names: IndexSet<&'a [u8]>,
    /// The ids of the links, in their order.
    pub link_names: IndexSet<&'a [u8]>,
    /// How many sections were skipped.
    pub skipped: u32,
    /// The number of the last line, from 1 on.
    pub end_line: u32,
}
