//! Times lengths and searches on a generated network: `walk_speed NODES LINKS ROUNDS`. Each round takes the lengths of
//! the loads, searches from the next node, and adds to the loads of one path, as a worker does for a claim. The times go to standard error,
//! the sum of the distances to standard output.
#![tactic(auto)]

ghost use Rattle.std.specs.Prelude.{◌≡◌, ◌+◌, ◌-◌, ◌*◌, ◌<◌, ◌≤◌, length, All, IfOk};

use anyhow::{Context, Result, ensure};
use dijkstra_paths::{Graph, Scratch};
use fixed_exp::{LengthTable, Powers};
use flow_model::{Net, Setting};
use mcf_limits::{MAX_CELLS, MAX_LENGTH, MAX_NODES};
use solve_tests::{Words, loads, ring_network};
use std::alloc::Global;
use std::env;
use std::rt::Clock;
use std::time::Instant;

const SETTING: Setting = Setting {
    first: false,
    ref_cap: 7,
    ref_load: 3000,
    step: 8192,
};

fn add_path(loads: &mut [u64], path: Option<&[u16]>, amount: u64)
    requires small { All (λ x. x ≤ MAX_LENGTH) loads.old }
    ensures small { All (λ x. x ≤ MAX_LENGTH) loads.new }
{
    let path = match path {
        Some(path) => path,
        None => return,
    };
    for cell in path {
        let i = *cell as usize;
        if i < loads.len() {
            loads[i] = loads[i].saturating_add(amount).min(MAX_LENGTH);
        }
    }
}

// Nanoseconds of all rounds: of the table of lengths, of the lengths made anew, of the searches.
#[derive(Clone, Copy)]
struct Times {
    table: u128,
    anew: u128,
    search: u128,
}

impl Times {
    fn add(self, table: u128, anew: u128, search: u128) -> Times {
        Times {
            table: self.table.saturating_add(table),
            anew: self.anew.saturating_add(anew),
            search: self.search.saturating_add(search),
        }
    }
}

fn measure(
    rt: &impl Clock,
    alloc: Global,
    net: &Net,
    loads: &mut [u64],
    rounds: u64,
) -> Result<(Times, u64)>
    requires nodes { 2 ≤ net.now.nodes }
    requires count { length loads.old ≡ length net.now.cells }
    requires small { All (λ x. x ≤ MAX_LENGTH) loads.old }
{
    let nodes = u64::from(net.nodes());
    let powers = Powers::new();
    let graph = Graph::new(alloc, net)?;
    let mut table = LengthTable::new(alloc, &powers, net, &SETTING)?;
    let mut lengths = vec![in alloc; 0u64; loads.len()]?;
    let mut scratch = Scratch::new(alloc, nodes as u16, 0)?;
    let mut times = Times {
        table: 0,
        anew: 0,
        search: 0,
    };
    let mut far = 0u64;
    for round in 0..rounds {
        let start = Instant::now(rt)?;
        table.update(&powers, net, loads);
        let followed = start.elapsed(rt)?.as_nanos();
        let start = Instant::now(rt)?;
        powers.lengths(net, &SETTING, loads, &mut lengths);
        let anew = start.elapsed(rt)?.as_nanos();
        let start = Instant::now(rt)?;
        scratch.search(&graph, table.lengths(), (round % nodes) as u16);
        let search = start.elapsed(rt)?.as_nanos();
        let to = (round.wrapping_mul(7) % nodes) as u16;
        far = far.wrapping_add(scratch.dist(to).unwrap_or(0));
        add_path(loads, scratch.path_to(to), 1 + round % 100);
        times = times.add(followed, anew, search);
    }
    Ok((times, far))
}

fn main(rt: HostRuntime) -> Result<()> {
    let alloc = rt.alloc();
    let mut args = env::args(&rt)?;
    args.next();
    let nodes: u64 = args.next().context("NODES")?.parse()?;
    let links: u64 = args.next().context("LINKS")?.parse()?;
    let rounds: u64 = args.next().context("ROUNDS")?.parse()?;
    ensure!(nodes >= 2 && nodes <= u64::from(MAX_NODES), "nodes");
    ensure!(links <= u64::from(MAX_CELLS), "links");
    ensure!(rounds >= 1, "rounds");
    let mut words = Words::new(7);
    let net = ring_network(alloc, &mut words, nodes, links)?;
    let mut loads = loads(alloc, &mut words, links as usize, 10_000)?;
    let (times, far) = measure(&rt, alloc, &net, &mut loads, rounds)?;
    let rounds = u128::from(rounds);
    eprintln!(rt;
        "table {} anew {} search {}",
        times.table / rounds,
        times.anew / rounds,
        times.search / rounds
    )?;
    println!(rt; "sum {far}")?;
    Ok(())
}
