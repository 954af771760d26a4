//! The bound of lengths and the bound of a cut.

ghost use Rattle.std.specs.Prelude.{◌≡◌, ◌<◌, ◌≤◌, IfOk, All, length};
ghost use Rattle.flow_model.specs.Lengths.{AreLengths};
ghost use Rattle.fixed_exp.specs.Far.{EmptyAreFar};

use crate::{cell, demand, network};
use dijkstra_paths::Graph;
use dual_bound::{Bounded, Team, bound, cut_bound, lesser_in, source_rows};
use fixed_exp::{LengthTable, Powers};
use flow_model::{Net, Setting};
use flow_paths::Dual;
use gap_fraction::Frac;
use std::alloc::{AllocError, Global};
use std::process::Abort;
use std::test::Fail;
use std::thread::Threads;

// The setting behind a fullest cell of 7 with a load of 10.
const LATER: Setting = Setting {
    first: false,
    ref_cap: 7,
    ref_load: 10,
    step: 65536,
};

// The bound under a load of 10, made three times in the same rows, the last time in the memory of the one before.
fn bound_in_kept_rows<R: Abort + Threads + Sync>(
    rt: &R,
    alloc: Global,
    net: &Net,
    graph: &Graph,
    lengths: &[u64],
    threads: u16,
) -> Result<(), Fail>
    requires graph { graph.now ≡ net.now }
    requires lengths { AreLengths net.now.cells lengths.now }
    requires empty { EmptyAreFar net.now.cells lengths.now }
{
    let mut rows = source_rows(alloc, net)?;
    let rows = &mut rows;
    let team = Team { rt, threads };
    let first = lesser_in(&team, alloc, net, graph, lengths, rows, None)?;
    assert_eq!(rt; first.value.num(), 20266198323167226);
    let again = lesser_in(&team, alloc, net, graph, lengths, rows, None)?;
    assert_eq!(rt; again.value.num(), 20266198323167226);
    let earlier = Bounded {
        dual: again.dual,
        value: Frac::new(20266198323167227, 19301141260159260),
    };
    let lesser = lesser_in(&team, alloc, net, graph, lengths, rows, Some(earlier))?;
    assert_eq!(rt; lesser.value.num(), 20266198323167226);
    assert_eq!(rt; lesser.dual.rows(), 1);
    assert_eq!(rt; lesser.dual.row(0), [0, 1930114126015926].as_slice());
    Ok(())
}

// How many rows the smaller of two bounds has: an earlier one without rows, of this numerator, and that under a load of 10.
fn rows_of_the_lesser<R: Threads + Sync>(
    rt: &R,
    alloc: Global,
    net: &Net,
    graph: &Graph,
    lengths: &[u64],
    num: u64,
) -> Result<usize, AllocError>
    requires graph { graph.now ≡ net.now }
    requires lengths { AreLengths net.now.cells lengths.now }
    requires empty { EmptyAreFar net.now.cells lengths.now }
{
    let mut rows = source_rows(alloc, net)?;
    let earlier = Bounded {
        dual: Dual::new(alloc),
        value: Frac::new(u128::from(num), 19301141260159260),
    };
    let rows = &mut rows;
    let team = Team { rt, threads: 1 };
    let kept = lesser_in(&team, alloc, net, graph, lengths, rows, Some(earlier))?;
    Ok(kept.dual.rows())
}

#[test]
fn bound_of_two_links_under_a_load(rt: HostRuntime) -> Result<(), Fail> {
    let alloc = rt.alloc();
    let cells = [cell(0, 1, false, 3), cell(0, 1, false, 7)];
    let net = network(alloc, 2, &cells, &[demand(0, 1, 10)])?.expect(&rt, "a network");
    assert_eq!(rt; net.cells().len(), 2);
    let graph = Graph::new(alloc, &net)?;
    let mut table = LengthTable::new(alloc, &Powers::new(), &net, &LATER)?;
    table.update(&Powers::new(), &net, &[0, 10]);
    let bounded = bound(&rt, alloc, &net, &graph, table.lengths())?;
    assert_eq!(rt; bounded.value.num(), 20266198323167226);
    assert_eq!(rt; bounded.value.den(), 19301141260159260);
    assert_eq!(rt; bounded.dual.lengths(), 2);
    assert_eq!(rt; bounded.dual.length(0), (0, 2251799813685248));
    assert_eq!(rt; bounded.dual.length(1), (1, 1930114126015926));
    assert_eq!(rt; bounded.dual.rows(), 1);
    assert_eq!(rt; bounded.dual.row_node(0), 0);
    assert_eq!(rt; bounded.dual.row(0), [0, 1930114126015926].as_slice());
    let rows = rows_of_the_lesser(&rt, alloc, &net, &graph, table.lengths(), 20266198323167226)?;
    assert_eq!(rt; rows, 0);
    let rows = rows_of_the_lesser(&rt, alloc, &net, &graph, table.lengths(), 20266198323167227)?;
    assert_eq!(rt; rows, 1);
    for threads in [0u16, 1, 16] {
        bound_in_kept_rows(&rt, alloc, &net, &graph, table.lengths(), threads)?;
    }
    Ok(())
}

#[test]
fn bound_of_a_node_that_is_cut_off(rt: HostRuntime) -> Result<(), Fail> {
    let alloc = rt.alloc();
    let cells = [cell(0, 1, true, 4), cell(1, 2, false, 0)];
    let net = network(alloc, 3, &cells, &[demand(0, 2, 2), demand(1, 0, 5)])?.expect(
        &rt,
        "a network",
    );
    let graph = Graph::new(alloc, &net)?;
    assert_eq!(rt; graph.first_cut(alloc, &net)?, Some(0));
    if let Some(_) = graph.first_cut(alloc, &net)? {
        let bounded = cut_bound(alloc, &net, &graph)?;
        assert_eq!(rt; bounded.value.num(), 0);
        assert_eq!(rt; bounded.value.den(), 2);
        assert_eq!(rt; bounded.dual.lengths(), 2);
        assert_eq!(rt; bounded.dual.length(1), (1, 1));
        assert_eq!(rt; bounded.dual.rows(), 2);
        assert_eq!(rt; bounded.dual.row(1), [0, 0, 1].as_slice());
    }
    Ok(())
}
