//! From rows to a certificate of a total.

ghost use Rattle.std.specs.Prelude.{IfOk};
ghost use Rattle.sndlib_grammar.specs.Rows.{AreNetRows};
ghost use Rattle.net_solve.specs.Asked.{IsAsked};
ghost use Rattle.throughput_cmd.specs.Parts.{IsPartSolving, OnRun};

use net_solve::{Asked, turn_options};
use sndlib_rows::{NetRefusal, RawNet};
use std::alloc::{AllocError, Global};
use throughput::{PartProof, solve_parts};
use unit_scale::{NetOptions, ScaleEnd, Scaled, scale};

/// What a run for the greatest total makes of the rows of a network.
#[derive(Drop)]
pub enum PartSolving {
    /// The rows are no network under the options.
    Refused(NetRefusal),
    /// A budget was given, and with it commodities times phases would be this number.
    TooMuch(u64),
    /// The network in units, and the certificate of a run on it.
    Done(Scaled, PartProof),
}

// The run on a network in units, or its work where that is too much.
fn solve_net(alloc: Global, net: Scaled, asked: &Asked) -> Result<PartSolving, AllocError>
    requires { IsAsked asked.now }
    ensures { IfOk result (OnRun net asked.now) }
{
    let options = match turn_options(net.net(), asked) {
        Ok(options) => options,
        Err(work) => return Ok(PartSolving::TooMuch(work)),
    };
    let p = solve_parts(alloc, net.net(), &options)?;
    let _nodes = net.net().nodes();
    Ok(PartSolving::Done(net, p))
}

/// The certificate of a run for the greatest total on the network that the rows stand for under the
/// options; or the first refusal; or the work, where a given budget makes it too much.
pub fn solve_part_rows(
    alloc: Global,
    rows: &RawNet<'_>,
    options: NetOptions,
    asked: &Asked,
) -> Result<PartSolving, AllocError>
    requires rows { AreNetRows rows.now }
    requires asked { IsAsked asked.now }
    ensures { IfOk result (IsPartSolving rows.now options asked.now) }
{
    match scale(alloc, rows, options) {
        Ok(net) => solve_net(alloc, net, asked),
        Err(ScaleEnd::Refused(refusal)) => Ok(PartSolving::Refused(refusal)),
        Err(ScaleEnd::Memory) => Err(AllocError),
    }
}
