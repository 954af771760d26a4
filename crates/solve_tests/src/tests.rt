//! Networks, and the certificate that is solved of each.

use crate::{cell, demand, entry_of, network, solved, solved_in};
use flow_model::Net;
use flow_solver::Solved;
use mcf_base::OpenGate;
use solver_run::{Entry, SolveOptions};
use std::alloc::Global;
use std::process::Abort;
use std::test::Fail;
use std::thread::Threads;

const fn asked(gap: u64, phases: u32, workers: u16, step: u32) -> SolveOptions {
    SolveOptions {
        gap,
        phases,
        workers,
        step,
    }
}

// Phases, the scale, and whether it is closed.
fn outcome(solved: &Solved) -> (u32, u64, u64, bool) {
    let proof = solved.proof();
    let routing = &proof.routing;
    (
        routing.phases,
        routing.scale_cap,
        routing.scale_load,
        proof.closed,
    )
}

// The upper fraction.
fn upper(solved: &Solved) -> (u128, u128) {
    let upper = solved.proof().upper;
    (upper.num, upper.den)
}

fn solve_it<R: Abort + Threads + Sync>(
    rt: &R,
    alloc: Global,
    net: &Net,
    options: &SolveOptions,
) -> Result<Solved, Fail> {
    let solved = solved(rt, alloc, net, options, &OpenGate)?.expect(rt, "options");
    Ok(solved)
}

// A link of 10 and a demand of 4.
#[test]
fn closed_on_one_link(rt: HostRuntime) -> Result<(), Fail> {
    let alloc = rt.alloc();
    let net = network(alloc, 2, &[cell(0, 1, false, 10)], &[demand(0, 1, 4)])?.expect(
        &rt,
        "a network",
    );
    let options = asked(50_000, 1000, 1, 65536);
    let found = solved(&rt, alloc, &net, &options, &OpenGate)?.expect(&rt, "options");
    assert_eq!(rt; outcome(&found), (1, 10, 4, true));
    assert_eq!(rt; upper(&found), (45035996273704960, 18014398509481984));
    assert_eq!(rt; found.phases(), 1);
    assert_eq!(rt;
        entry_of(&net, &options, &found, 1, 0),
        Some(Entry { worker: 0, row: 0 })
    );
    Ok(())
}

// Two links side by side, of 3 and 7, and a demand of 10.
fn side_by_side(rt: &impl Abort, alloc: Global) -> Result<Net, Fail> {
    let cells = [cell(0, 1, false, 3), cell(0, 1, false, 7)];
    let net = network(alloc, 2, &cells, &[demand(0, 1, 10)])?.expect(rt, "a network");
    Ok(net)
}

#[test]
fn open_after_the_budget(rt: HostRuntime) -> Result<(), Fail> {
    let alloc = rt.alloc();
    let net = side_by_side(&rt, alloc)?;
    let found = solve_it(&rt, alloc, &net, &asked(50_000, 1, 1, 65536))?;
    assert_eq!(rt; outcome(&found), (1, 7, 10, false));
    assert_eq!(rt; upper(&found), (20266198323167226, 19301141260159260));
    let below = solve_it(&rt, alloc, &net, &asked(500_000, 1, 1, 65536))?;
    assert!(rt; !below.proof().closed);
    let above = solve_it(&rt, alloc, &net, &asked(500_001, 1, 1, 65536))?;
    assert!(rt; above.proof().closed);
    Ok(())
}

#[test]
fn the_first_bound_is_kept(rt: HostRuntime) -> Result<(), Fail> {
    let alloc = rt.alloc();
    let net = side_by_side(&rt, alloc)?;
    let found = solve_it(&rt, alloc, &net, &asked(200_000, 1000, 1, 65536))?;
    assert_eq!(rt; outcome(&found), (3, 3, 10, true));
    assert_eq!(rt; upper(&found), (20266198323167226, 19301141260159260));
    let paths = &found.proof().routing.paths;
    assert_eq!(rt; paths.rows(), 2);
    if paths.rows() == 2 {
        assert_eq!(rt; paths.path(0), [0u16].as_slice());
        assert_eq!(rt; paths.weight(0), 10);
        assert_eq!(rt; paths.path(1), [1u16].as_slice());
        assert_eq!(rt; paths.weight(1), 20);
    }
    Ok(())
}

// The number of threads that make bounds changes no answer.
#[test]
fn the_same_in_all_threads(rt: HostRuntime) -> Result<(), Fail> {
    let alloc = rt.alloc();
    let net = side_by_side(&rt, alloc)?;
    let options = asked(200_000, 1000, 1, 65536);
    for threads in [0u16, 1, 16] {
        let found = solved_in(&rt, alloc, &net, &options, &OpenGate, threads)?;
        let found = found.expect(&rt, "options");
        assert_eq!(rt; outcome(&found), (3, 3, 10, true));
        assert_eq!(rt; upper(&found), (20266198323167226, 19301141260159260));
    }
    Ok(())
}

// A demand to a node without links.
#[test]
fn a_cut_is_closed(rt: HostRuntime) -> Result<(), Fail> {
    let alloc = rt.alloc();
    let net = network(alloc, 3, &[cell(0, 1, true, 4)], &[demand(0, 2, 2)])?.expect(
        &rt,
        "a network",
    );
    let found = solve_it(&rt, alloc, &net, &asked(0, 1, 16, 1))?;
    assert_eq!(rt; outcome(&found), (0, 0, 1, true));
    assert_eq!(rt; upper(&found), (0, 2));
    assert_eq!(rt; found.phases(), 0);
    Ok(())
}

// Links that share no path leave no choice, whoever routes.
#[test]
fn the_same_for_all_workers(rt: HostRuntime) -> Result<(), Fail> {
    let alloc = rt.alloc();
    let cells = [
        cell(0, 1, true, 8),
        cell(0, 2, true, 8),
        cell(0, 3, true, 8),
        cell(0, 4, true, 8),
        cell(0, 5, true, 8),
    ];
    let demands = [demand(1, 2, 1), demand(3, 4, 2), demand(5, 0, 4)];
    let net = network(alloc, 6, &cells, &demands)?.expect(&rt, "a network");
    for workers in [1u16, 2, 16] {
        let found = solve_it(&rt, alloc, &net, &asked(50_000, 1000, workers, 1048576))?;
        assert_eq!(rt; outcome(&found), (1, 8, 4, true));
        assert_eq!(rt; upper(&found), (36327864181719040, 18086966276915200));
        assert_eq!(rt; found.proof().routing.paths.rows(), 3);
    }
    Ok(())
}
