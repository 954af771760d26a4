//! Searches by layers beside a listing of all walks, over a network with odd cells.

ghost use Rattle.std.specs.Prelude.{◌≡◌, ◌<◌, ◌≤◌, IfOk, length};
ghost use Rattle.flow_model.specs.Lengths.{AreLengths};

use dijkstra_paths::Graph;
use fixed_exp::{LengthTable, Powers};
use flow_model::{Cell, Commodity, Net, Setting};
use hop_paths::HopScratch;
use mcf_limits::MAX_LENGTH;
use std::alloc::{AllocError, Global};
use std::process::Abort;
use std::test::Fail;

const LATER: Setting = Setting {
    first: false,
    ref_cap: 7,
    ref_load: 10,
    step: 65536,
};

fn cell(tail: u16, head: u16, both: bool, cap: u64) -> Cell
    ensures { result ≡ record { tail = tail; head = head; both = both; cap = cap } }
{
    Cell {
        tail,
        head,
        both,
        cap,
    }
}

// A way to itself, two in parallel, one without capacity, some of one direction, and a node that is far off.
fn odd_network(alloc: Global) -> Result<Net, AllocError>
    ensures { IfOk result (λ net. (net.nodes ≡ 5) × (length net.cells ≡ 8)) }
{
    let cells = vec![in alloc;
        cell(0, 0, true, 5),
        cell(0, 1, false, 2),
        cell(0, 1, true, 2),
        cell(0, 2, true, 0),
        cell(2, 1, true, 1),
        cell(2, 0, false, 9),
        cell(1, 3, false, 4),
        cell(3, 2, true, 3),
    ]?;
    let commodity = Commodity {
        from: 0,
        to: 3,
        amount: 1,
    };
    Ok(Net::new(5, cells, vec![in alloc; commodity]?))
}

// The other end of a cell that has a capacity and may be gone over from that node.
fn other_end(cell: &Cell, at: u16) -> Option<u16> {
    if cell.cap == 0 {
        None
    } else if cell.tail == at {
        Some(cell.head)
    } else if cell.both && cell.head == at {
        Some(cell.tail)
    } else {
        None
    }
}

// Goes over every walk of at most `left` more cells, and keeps for each node the least length of those that lead to it.
fn list_walks(cells: &[Cell], lengths: &[u64], at: u16, left: u8, length: u64, best: &mut [u64]) {
    if let Some(least) = best.get_mut(at as usize) {
        *least = length.min(*least);
    }
    if left == 0 {
        return;
    }
    for (i, cell) in cells.iter().enumerate() {
        if let Some(to) = other_end(cell, at) {
            let step = lengths.get(i).copied().unwrap_or(MAX_LENGTH);
            list_walks(
                cells,
                lengths,
                to,
                left - 1,
                length.saturating_add(step),
                best,
            );
        }
    }
}

// Where a walk from that node over these cells ends, if it is one.
fn end_of(cells: &[Cell], path: &[u16], from: u16) -> Option<u16> {
    let mut at = from;
    for number in path {
        let cell = cells.get(*number as usize)?;
        at = other_end(cell, at)?;
    }
    Some(at)
}

// The length of the path, as far as it fits.
fn length_of(path: &[u16], lengths: &[u64]) -> u64 {
    let mut sum = 0u64;
    for number in path {
        sum = sum.saturating_add(lengths.get(*number as usize).copied().unwrap_or(MAX_LENGTH));
    }
    sum
}

// The number of cells, the end and the length of a path from that node.
fn told(
    path: Option<&[u16]>,
    cells: &[Cell],
    lengths: &[u64],
    from: u16,
) -> Option<(usize, Option<u16>, u64)> {
    match path {
        None => None,
        Some(path) => Some((
            path.len(),
            end_of(cells, path, from),
            length_of(path, lengths),
        )),
    }
}

// One layer of a search from that node.
fn compare_layer(
    rt: &impl Abort,
    alloc: Global,
    net: &Net,
    lengths: &[u64],
    scratch: &mut HopScratch,
    from: u16,
    layer: u8,
) -> Result<(), Fail>
    requires nodes { scratch.old.nodes ≡ net.now.nodes }
    requires layer { layer < scratch.old.made }
    ensures scratch { scratch.new ≡ scratch.old }
{
    let mut best = vec![in alloc; MAX_LENGTH; net.nodes() as usize]?;
    list_walks(net.cells(), lengths, from, layer, 0, &mut best);
    for v in 0..net.nodes() {
        let least = best.get(v as usize).copied().filter(|d| *d < MAX_LENGTH);
        assert_eq!(rt; scratch.dist(layer, v), least);
        match told(scratch.path_to(layer, v), net.cells(), lengths, from) {
            None => assert_eq!(rt; least, None),
            Some((count, end, length)) => {
                assert!(rt; count <= usize::from(layer));
                assert_eq!(rt; (end, Some(length)), (Some(v), least));
            }
        }
    }
    Ok(())
}

// All layers of a search from that node.
fn compare_layers(
    rt: &impl Abort,
    alloc: Global,
    net: &Net,
    lengths: &[u64],
    from: u16,
) -> Result<(), Fail>
    requires lengths { AreLengths net.now.cells lengths.now }
    requires from { from < net.now.nodes }
{
    let graph = Graph::new(alloc, net)?;
    let mut scratch = HopScratch::new(alloc, net.nodes(), 4)?;
    scratch.search(&graph, lengths, from, 4);
    for layer in 0..5 {
        compare_layer(rt, alloc, net, lengths, &mut scratch, from, layer)?;
    }
    Ok(())
}

// All searches, where two cells have this load.
fn compare_under(
    rt: &impl Abort,
    alloc: Global,
    powers: &Powers,
    net: &Net,
    load: u64,
) -> Result<(), Fail>
    requires nodes { net.now.nodes ≡ 5 }
    requires cells { length net.now.cells ≡ 8 }
    requires load { load ≤ 20 }
{
    let mut table = LengthTable::new(alloc, powers, net, &LATER)?;
    table.update(powers, net, &[0, 3, load, 9, 0, load, 2, 1]);
    for from in 0..5 {
        compare_layers(rt, alloc, net, table.lengths(), from)?;
    }
    Ok(())
}

#[test]
fn layers_have_the_least_of_all_walks(rt: HostRuntime) -> Result<(), Fail> {
    let alloc = rt.alloc();
    let powers = Powers::new();
    let net = odd_network(alloc)?;
    for load in [0, 1, 3, 7, 20] {
        compare_under(&rt, alloc, &powers, &net, load)?;
    }
    Ok(())
}
