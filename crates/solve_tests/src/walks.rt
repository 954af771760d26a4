//! Rows of lengths, arcs, reach, cuts and least walks, and a plain slow search beside the fast one.

ghost use Rattle.std.specs.Prelude.{◌≡◌, ◌<◌, ◌≤◌, IfOk, All, length};
ghost use Rattle.flow_model.specs.Lengths.{AreLengths, IsSetting, lengths_of};

use crate::{Words, cell, demand, loads, network};
use dijkstra_paths::{Arc, Graph, Scratch};
use fixed_exp::{LengthTable, Powers};
use flow_model::{Cell, Net, Setting};
use mcf_limits::MAX_LENGTH;
use std::alloc::{AllocError, Global};
use std::process::Abort;
use std::test::Fail;

const FIRST: Setting = Setting {
    first: true,
    ref_cap: 0,
    ref_load: 1,
    step: 65536,
};

const LATER: Setting = Setting {
    first: false,
    ref_cap: 7,
    ref_load: 10,
    step: 65536,
};

fn two_links(rt: &impl Abort, alloc: Global) -> Result<Net, Fail> {
    let cells = [cell(0, 1, false, 3), cell(0, 1, false, 7)];
    let net = network(alloc, 2, &cells, &[demand(0, 1, 10)])?;
    Ok(net.expect(rt, "a network"))
}

#[test]
fn weights_of_whole_and_half_powers(rt: HostRuntime) {
    let powers = Powers::new();
    let rows = [
        (0, 1099511627776),
        (32768, 777472127744),
        (65536, 549755813888),
        (2621440, 1),
        (2621441, 0),
        (2686976, 0),
        (u128::MAX, 0),
    ];
    for (drop, want) in rows {
        assert_eq!(rt; powers.weight(drop), want, "at {drop}");
    }
}

#[test]
fn lengths_before_and_after_a_load(rt: HostRuntime) -> Result<(), Fail> {
    let alloc = rt.alloc();
    let net = two_links(&rt, alloc)?;
    assert_eq!(rt; net.cells().len(), 2);
    let powers = Powers::new();
    let mut into = [0, 0];
    powers.lengths(&net, &FIRST, &[0, 0], &mut into);
    assert_eq!(rt;
        into.as_slice(),
        [4503599627370496, 1930114126015926].as_slice()
    );
    powers.lengths(&net, &LATER, &[0, 10], &mut into);
    assert_eq!(rt;
        into.as_slice(),
        [2251799813685248, 1930114126015926].as_slice()
    );

    let mut table = LengthTable::new(alloc, &powers, &net, &FIRST)?;
    assert_eq!(rt;
        table.lengths(),
        [4503599627370496, 1930114126015926].as_slice()
    );
    table.update(&powers, &net, &[0, 10]);
    assert_eq!(rt;
        table.lengths(),
        [4503599627370496, 1930114126015926].as_slice()
    );
    let mut table = LengthTable::new(alloc, &powers, &net, &LATER)?;
    table.update(&powers, &net, &[0, 10]);
    assert_eq!(rt;
        table.lengths(),
        [2251799813685248, 1930114126015926].as_slice()
    );
    table.update(&powers, &net, &[0, 0]);
    assert_eq!(rt;
        table.lengths(),
        [4503599627370496, 1930114126015926].as_slice()
    );
    Ok(())
}

#[test]
fn the_wider_of_two_links(rt: HostRuntime) -> Result<(), Fail> {
    let alloc = rt.alloc();
    let net = two_links(&rt, alloc)?;
    assert_eq!(rt; net.cells().len(), 2);
    assert_eq!(rt; net.nodes(), 2);
    let mut lengths = [0, 0];
    Powers::new().lengths(&net, &FIRST, &[0, 0], &mut lengths);
    let graph = Graph::new(alloc, &net)?;
    let mut scratch = Scratch::new(alloc, 2, 2)?;
    scratch.search(&graph, &lengths, 0);
    assert_eq!(rt; scratch.dist(1), Some(1930114126015926));
    assert_eq!(rt; scratch.path_to(1), Some([1].as_slice()));
    scratch.search(&graph, &lengths, 1);
    assert_eq!(rt; scratch.dist(0), None);
    assert!(rt; scratch.path_to(0).is_none());
    Ok(())
}

#[test]
fn a_node_that_is_cut_off(rt: HostRuntime) -> Result<(), Fail> {
    let alloc = rt.alloc();
    let net = network(alloc, 3, &[cell(0, 1, true, 4)], &[demand(0, 2, 2)])?.expect(
        &rt,
        "a network",
    );
    assert_eq!(rt; net.nodes(), 3);
    let graph = Graph::new(alloc, &net)?;
    assert_eq!(rt;
        graph.reach(alloc, 0)?.as_slice(),
        [true, true, false].as_slice()
    );
    assert_eq!(rt; graph.first_cut(alloc, &net)?, Some(0));
    Ok(())
}

#[test]
fn arcs_of_odd_cells(rt: HostRuntime) -> Result<(), Fail> {
    let alloc = rt.alloc();
    // a way to itself, two in parallel, one without capacity, one that is gone over backwards
    let cells = [
        cell(0, 0, true, 5),
        cell(0, 1, false, 2),
        cell(0, 1, false, 2),
        cell(0, 2, true, 0),
        cell(2, 0, true, 1),
    ];
    let net = network(alloc, 4, &cells, &[demand(1, 0, 1), demand(0, 1, 1)])?.expect(
        &rt,
        "a network",
    );
    assert_eq!(rt; net.nodes(), 4);
    let graph = Graph::new(alloc, &net)?;
    let from_0 = [
        Arc { cell: 0, to: 0 },
        Arc { cell: 1, to: 1 },
        Arc { cell: 2, to: 1 },
        Arc { cell: 4, to: 2 },
    ];
    assert_eq!(rt; graph.out(0), from_0.as_slice());
    assert_eq!(rt; graph.out(1).len(), 0);
    assert_eq!(rt; graph.out(2), [Arc { cell: 4, to: 0 }].as_slice());
    assert_eq!(rt; graph.out(3).len(), 0);
    assert_eq!(rt; graph.first_cut(alloc, &net)?, Some(0));
    let joined = network(alloc, 4, &cells, &[demand(0, 1, 1), demand(2, 1, 1)])?.expect(
        &rt,
        "a network",
    );
    assert_eq!(rt;
        Graph::new(alloc, &joined)?.first_cut(alloc, &joined)?,
        None
    );
    Ok(())
}

// A distance to the head by the tail's, where that is less.
fn nearer(tail: Option<u64>, head: Option<u64>, length: u64) -> Option<u64> {
    let by_tail = tail.and_then(|d| d.checked_add(length));
    match (by_tail, head) {
        (Some(a), Some(b)) => Some(a.min(b)),
        (Some(a), None) => Some(a),
        (None, head) => head,
    }
}

// The distances from a node, by as many rounds over all cells as there are nodes (Bellman, 1958).
fn slow_distances(
    alloc: Global,
    nodes: u16,
    cells: &[Cell],
    lengths: &[u64],
    from: u16,
) -> Result<Vec<Option<u64>>, AllocError> {
    let mut dist = vec![in alloc; None; nodes as usize]?;
    if let Some(d) = dist.get_mut(from as usize) {
        *d = Some(0);
    }
    for _ in 0..nodes {
        for (cell, length) in cells.iter().zip(lengths) {
            let (tail, head) = (cell.tail as usize, cell.head as usize);
            if cell.cap == 0 || tail >= dist.len() || head >= dist.len() {
                continue;
            }
            dist[head] = nearer(dist[tail], dist[head], *length);
            if cell.both {
                dist[tail] = nearer(dist[head], dist[tail], *length);
            }
        }
    }
    Ok(dist)
}

fn small_network(alloc: Global, words: &mut Words) -> Result<Option<Net>, AllocError> {
    let nodes = 2 + words.below(7);
    let mut cells = Vec::new(alloc);
    for _ in 0..words.below(14) {
        let tail = words.below(nodes) as u16;
        let head = words.below(nodes) as u16;
        cells.push(cell(tail, head, words.below(2) == 0, words.below(4)))?;
    }
    let from = words.below(nodes);
    let to = (from + 1 + words.below(nodes - 1)) % nodes;
    network(
        alloc,
        nodes as u16,
        &cells,
        &[demand(from as u16, to as u16, 1)],
    )
}

// Whether the length of the path is the distance.
fn is_path_of(path: Option<&[u16]>, lengths: &[u64], dist: Option<u64>) -> bool {
    match path {
        None => dist.is_none(),
        Some(cells) => {
            let mut sum = 0u64;
            for cell in cells {
                sum = sum.saturating_add(
                    lengths.get(*cell as usize).copied().unwrap_or(MAX_LENGTH),
                );
            }
            dist == Some(sum)
        }
    }
}

fn compare(
    rt: &impl Abort,
    alloc: Global,
    net: &Net,
    lengths: &[u64],
    from: u16,
) -> Result<(), Fail>
    requires lengths { AreLengths net.now.cells lengths.now }
    requires from { from < net.now.nodes }
{
    let nodes = net.nodes();
    let slow = slow_distances(alloc, nodes, net.cells(), lengths, from)?;
    let graph = Graph::new(alloc, net)?;
    let reached = graph.reach(alloc, from)?;
    let mut scratch = Scratch::new(alloc, nodes, 0)?;
    scratch.search(&graph, lengths, from);
    for v in 0..nodes {
        let dist = scratch.dist(v);
        assert_eq!(rt; slow.get(v as usize).copied(), Some(dist));
        assert_eq!(rt; reached.get(v as usize).copied(), Some(dist.is_some()));
        assert!(rt; is_path_of(scratch.path_to(v), lengths, dist));
    }
    Ok(())
}

#[test]
fn searches_agree_with_slow_ones(rt: HostRuntime) -> Result<(), Fail> {
    let alloc = rt.alloc();
    let powers = Powers::new();
    let mut words = Words::new(11);
    for _ in 0..200 {
        let net = small_network(alloc, &mut words)?.expect(&rt, "a network");
        let mut table = LengthTable::new(alloc, &powers, &net, &LATER)?;
        let loads = loads(alloc, &mut words, net.cells().len(), 3)?;
        table.update(&powers, &net, &loads);
        for from in 0..net.nodes() {
            compare(&rt, alloc, &net, table.lengths(), from)?;
        }
    }
    Ok(())
}
