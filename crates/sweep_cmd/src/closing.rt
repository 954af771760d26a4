//! A network with a link closed, and what is kept of its solve.

ghost use Rattle.std.specs.Prelude.{◌≡◌, ◌≤◌, ◌==◌, if◌then◌else◌, IfOk, length, map};
ghost use Rattle.unit_scale.specs.Closed.{closed, with_link};
ghost use Rattle.unit_scale.specs.Names.{name_of as name_of_lem};
ghost use Rattle.flow_paths.specs.Certificate.{IsProofOf, IsValid};
ghost use Rattle.flow_paths.specs.Evaluation.{with_caps};
ghost use Rattle.solver_run.specs.Options.{AreOptions};
ghost use Rattle.sweep_cmd.specs.Asked.{alone as alone_lem};
ghost use Rattle.sweep_cmd.specs.Swept.{IsKeptOf, IsSwept};

use crate::asked::{SweepOptions, alone};
use crate::swept::Swept;
use cert_check::{lower, upper};
use flow_model::{Cell, Net};
use flow_paths::Proof;
use flow_solver::solve_in;
use mcf_base::Gate;
use mcf_limits::MAX_CELLS;
use std::alloc::{AllocError, Global};
use std::thread::Threads;
use unit_scale::{LinkMode, name_of};

/// A network whose links are closed one at a time, how its links are read, and how each network is solved.
#[derive(Drop)]
pub struct Closing<'a> {
    /// The network.
    pub net: &'a Net,
    /// How its links are read.
    pub mode: LinkMode,
    /// How each network is solved.
    pub options: &'a SweepOptions,
}

// The cell, with capacity 0 where it is one of the link.
fn shut(mode: LinkMode, link: u16, c: u16, cell: Cell) -> Cell
    ensures { result ≡ record cell { cap = if (name_of_lem mode c).link == link then 0 else cell.cap } }
{
    let cap = if name_of(mode, c).link == link {
        0
    } else {
        cell.cap
    };
    Cell {
        tail: cell.tail,
        head: cell.head,
        both: cell.both,
        cap,
    }
}

// The cells, those of the link with capacity 0.
fn cells_without(
    alloc: Global,
    cells: &[Cell],
    mode: LinkMode,
    link: u16,
) -> Result<Vec<Cell>, AllocError>
    requires { length cells.now ≤ MAX_CELLS }
    ensures { IfOk result (λ v. v.items
        ≡ with_caps cells.now (with_link mode (map (λ cell. cell.cap) cells.now) link 0)) }
{
    let mut list = Vec::with_capacity(alloc, cells.len())?;
    for (c, cell) in cells.iter().enumerate() {
        list.push(shut(mode, link, c as u16, *cell))?;
    }
    Ok(list)
}

// The network with the cells of the link at capacity 0.
fn without(alloc: Global, net: &Net, mode: LinkMode, link: u16) -> Result<Net, AllocError>
    ensures { IfOk result (λ n. n ≡ closed mode net.now link) }
{
    let cells = cells_without(alloc, net.cells(), mode, link)?;
    let commodities = Vec::from_slice(alloc, net.commodities())?;
    Ok(Net::new(net.nodes(), cells, commodities))
}

// What is kept of a valid certificate.
fn kept(alloc: Global, net: &Net, proof: &Proof) -> Result<Swept, AllocError>
    requires named { IsProofOf net.now proof.now }
    requires valid { IsValid net.now proof.now }
    ensures { IfOk result (IsKeptOf net.now proof.now) }
{
    Ok(Swept {
        closed: proof.closed,
        phases: proof.routing.phases,
        lower: lower(&proof.routing),
        upper: upper(alloc, net, proof)?,
    })
}

/// What is kept of a solve of the network with the link closed, which starts no thread of its own.
pub fn solve_without<G: Gate, R: Threads + Sync>(
    rt: &R,
    alloc: Global,
    closing: &Closing<'_>,
    gate: &G,
    link: u16,
) -> Result<Swept, AllocError>
    requires { AreOptions closing.now.net.now (alone_lem closing.now.options.now) }
    ensures { IfOk result
        (IsSwept closing.now.mode closing.now.net.now closing.now.options.now link) }
{
    let net = without(alloc, closing.net, closing.mode, link)?;
    let solved = solve_in(rt, alloc, &net, &alone(closing.options), gate, 1)?;
    kept(alloc, &net, solved.proof())
}
