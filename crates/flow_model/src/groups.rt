//! Groups: the commodities of one source, found in time linear in nodes and commodities.

ghost use Rattle.std.specs.Prelude.{◌≡◌, ℕ, ◌+◌, ◌<◌, ◌≤◌, ◌++◌, All, EachIndex, IfOk, OnOk, length, slice_index, slice_range};
ghost use Rattle.std.specs.List.{filter, range_with_len};
ghost use Rattle.flow_model.specs.Network.{IsCommodity};
ghost use Rattle.flow_model.specs.Groups.{group_count, group_sources, is_source, members_of};
ghost use Rattle.flow_model.specs.Grouped.{AreChains, members_from};

use crate::net::{Commodity, Net};
use mcf_limits::MAX_DEMANDS;
use std::alloc::{AllocError, Global};
use std::marker::Model;
use std::snapshot::Snapshot;

/// The commodities of a network by their source. Contracts see it as the network that it was made from.
#[derive(Drop)]
pub struct Groups {
    net: Snapshot<Net>,
    /// The nodes at which a commodity starts, ascending.
    sources: Vec<u16>,
    /// Where the members of each node begin, with the end after the last.
    starts: Vec<u32>,
    /// The commodities, by their source and then ascending.
    members: Vec<u32>,
}

impl Model for Groups {
    ghost use Rattle.flow_model.specs.Network.{Network};
    ghost use Rattle.flow_model.specs.Grouped.{AreGroups};

    ghost Value = { Network };

    ghost view = { λ g. g.net.value };

    ghost invariant = { λ g. AreGroups g.net.value g.sources.items g.starts.items g.members.items };
}

// The first commodity of each node, and after each commodity the next one of the same source. Where there is none, the number of commodities.
#[derive(Drop)]
struct Chains {
    first: Vec<u32>,
    next: Vec<u32>,
}

// Links the commodities, from the last one to the first.
fn link(commodities: &[Commodity], first: &mut [u32], next: &mut [u32])
    requires few { length commodities.now ≤ MAX_DEMANDS }
    requires nodes { All (IsCommodity (length first.old)) commodities.now }
    requires nexts { length next.old ≡ length commodities.now }
    requires none { EachIndex first.old (λ v. slice_index first.old v ≡ length commodities.now) }
    ensures { AreChains commodities.now first.new next.new }
{
    for k in (0..commodities.len()).rev() {
        let from = commodities[k].from as usize;
        next[k] = first[from];
        first[from] = k as u32;
    }
}

// The chains of all commodities.
fn chains_of(alloc: Global, nodes: u16, commodities: &[Commodity]) -> Result<Chains, AllocError>
    requires few { length commodities.now ≤ MAX_DEMANDS }
    requires nodes { All (IsCommodity nodes) commodities.now }
    ensures nodes { IfOk result (λ c. length c.first.items ≡ nodes) }
    ensures chains { IfOk result (λ c. AreChains commodities.now c.first.items c.next.items) }
{
    let none = commodities.len() as u32;
    let mut first = vec![in alloc; none; nodes as usize]?;
    let mut next = vec![in alloc; none; commodities.len()]?;
    link(commodities, first.as_mut_slice(), next.as_mut_slice());
    Ok(Chains { first, next })
}

// The nodes that have a first commodity.
fn sources_of(
    alloc: Global,
    nodes: u16,
    commodities: &[Commodity],
    chains: &Chains,
) -> Result<Vec<u16>, AllocError>
    requires nodes { length chains.now.first.items ≡ nodes }
    requires chains { AreChains commodities.now chains.now.first.items chains.now.next.items }
    ensures { IfOk result (λ v. v.items ≡ filter (is_source commodities.now) (range_with_len 0 nodes)) }
{
    let first = chains.first.as_slice();
    let mut sources = Vec::new(alloc);
    for v in 0..nodes {
        if (first[v as usize] as usize) < commodities.len() {
            sources.push(v)?;
        }
    }
    Ok(sources)
}

// Appends the chain of a node.
fn append_members(
    commodities: &[Commodity],
    chains: &Chains,
    from: u16,
    members: &mut Vec<u32>,
) -> Result<(), AllocError>
    requires from { from < length chains.now.first.items }
    requires chains { AreChains commodities.now chains.now.first.items chains.now.next.items }
    ensures { OnOk result (members.new.items ≡ members.old.items ++ members_from commodities.now 0 from) }
{
    let first = chains.first.as_slice();
    let next = chains.next.as_slice();
    let mut at = first[from as usize];
    while (at as usize) < commodities.len() {
        members.push(at)?;
        at = next[at as usize];
    }
    Ok(())
}

// The items from one place up to another.
fn part(members: &[u32], start: usize, end: usize) -> &[u32]
    requires start { start ≤ end }
    requires end { end ≤ length members.now }
    ensures { result.now ≡ slice_range members.now start end }
{
    &members[start..end]
}

impl Groups {
    ghost use Rattle.std.specs.Prelude.{◌≡◌, ◌<◌, IfOk, slice_index};
    ghost use Rattle.flow_model.specs.Groups.{group_count, group_sources, members_of};

    /// The groups of the network. `Err`: out of memory.
    pub fn new(alloc: Global, net: &Net) -> Result<Self, AllocError>
        ensures { IfOk result (λ g. g ≡ net.now) }
    {
        let commodities = net.commodities();
        let nodes = net.nodes();
        let chains = chains_of(alloc, nodes, commodities)?;
        let sources = sources_of(alloc, nodes, commodities, &chains)?;
        let mut starts = Vec::new(alloc);
        let mut members = Vec::new(alloc);
        for v in 0..nodes {
            starts.push(members.len() as u32)?;
            append_members(commodities, &chains, v, &mut members)?;
        }
        starts.push(members.len() as u32)?;
        Ok(Groups {
            net: Snapshot::of(net),
            sources,
            starts,
            members,
        })
    }

    /// How many groups there are.
    pub fn count(&self) -> u16
        ensures { result ≡ group_count self.now }
    {
        self.sources.len() as u16
    }

    /// The node at which the group's commodities start.
    pub fn source(&self, g: u16) -> u16
        requires { g < group_count self.now }
        ensures { result ≡ slice_index (group_sources self.now) g }
    {
        let sources = self.sources.as_slice();
        sources[g as usize]
    }

    /// The group's commodities, ascending.
    pub fn members(&self, g: u16) -> &[u32]
        requires { g < group_count self.now }
        ensures { result.now ≡ members_of self.now g }
    {
        let sources = self.sources.as_slice();
        let starts = self.starts.as_slice();
        let source = sources[g as usize] as usize;
        let start = starts[source] as usize;
        let end = starts[source + 1] as usize;
        part(&self.members, start, end)
    }
}
