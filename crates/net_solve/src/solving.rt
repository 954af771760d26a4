//! From rows to a solved network.

ghost use Rattle.std.specs.Prelude.{◌≡◌, ◌≤◌, IfOk, Ok};
ghost use Rattle.unit_scale.specs.declared.options.NetOptions.{NetOptions};
ghost use Rattle.sndlib_grammar.specs.Rows.{NetRows, AreNetRows};
ghost use Rattle.unit_scale.specs.Scaling.{scaled_of};
ghost use Rattle.cert_lines.specs.declared.net_line.TheConstants.{MAX_COUNT};
ghost use Rattle.net_solve.specs.Asked.{IsAsked};
ghost use Rattle.net_solve.specs.Solving.{IsSolving};

use crate::asked::{Asked, options_of};
use flow_solver::{Solved, solve};
use mcf_base::Gate;
use sndlib_rows::{NetRefusal, RawNet};
use std::alloc::{AllocError, Global};
use std::thread::Threads;
use unit_scale::{NetOptions, ScaleEnd, Scaled, scale};

/// What a solve makes of the rows of a network.
#[derive(Drop)]
pub enum Solving {
    /// The rows are no network under the options.
    Refused(NetRefusal),
    /// A budget was given, and with it commodities times phases would be this number.
    TooMuch(u64),
    /// The network in units, and its solve.
    Done(Scaled, Solved),
}

// The solve of a network in units.
fn solve_net<G: Gate, R: Threads + Sync>(
    rt: &R,
    alloc: Global,
    net: Scaled,
    asked: &Asked,
    gate: &G,
) -> Result<Solving, AllocError>
    requires { IsAsked asked.now }
    ensures { IfOk result (λ s. (rows : NetRows) → (o : NetOptions) → AreNetRows rows
        → rows.skipped ≤ MAX_COUNT → scaled_of rows o ≡ Ok net → IsSolving rows o asked.now s) }
{
    let _nodes = net.net().nodes();
    let options = match options_of(net.net(), asked) {
        Ok(options) => options,
        Err(work) => return Ok(Solving::TooMuch(work)),
    };
    let solved = solve(rt, alloc, net.net(), &options, gate)?;
    Ok(Solving::Done(net, solved))
}

/// The solve of the network that the rows stand for under the options, or the first refusal of the
/// rows, or the work where a given budget makes it too much.
pub fn solve_rows<G: Gate, R: Threads + Sync>(
    rt: &R,
    alloc: Global,
    rows: &RawNet<'_>,
    options: NetOptions,
    asked: &Asked,
    gate: &G,
) -> Result<Solving, AllocError>
    requires rows { AreNetRows rows.now }
    requires asked { IsAsked asked.now }
    ensures { IfOk result (IsSolving rows.now options asked.now) }
{
    let _skipped = rows.skipped();
    match scale(alloc, rows, options) {
        Ok(net) => solve_net(rt, alloc, net, asked, gate),
        Err(ScaleEnd::Refused(refusal)) => Ok(Solving::Refused(refusal)),
        Err(ScaleEnd::Memory) => Err(AllocError),
    }
}
