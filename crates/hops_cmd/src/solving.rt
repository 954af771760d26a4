//! From rows to a certificate with hop limits.

ghost use Rattle.std.specs.Prelude.{IfOk};
ghost use Rattle.sndlib_grammar.specs.Rows.{AreNetRows};
ghost use Rattle.hop_paths.specs.Allowed.{AreLimits};
ghost use Rattle.net_solve.specs.Asked.{IsAsked};
ghost use Rattle.hops_cmd.specs.Hops.{IsHopSolving, OnRun};

use hop_check::{HopProof, hop_limits};
use hop_solve::solve_hops;
use net_solve::{Asked, turn_options};
use sndlib_rows::{NetRefusal, RawNet};
use std::alloc::{AllocError, Global};
use unit_scale::{NetOptions, ScaleEnd, Scaled, scale};

/// What a run within hop limits makes of the rows of a network.
#[derive(Drop)]
pub enum HopSolving {
    /// The rows are no network under the options, or a limit is too far.
    Refused(NetRefusal),
    /// A budget was given, and with it commodities times phases would be this number.
    TooMuch(u64),
    /// The network in units, and the certificate of a run on it.
    Done(Scaled, HopProof),
}

// The run on a network in units within these limits, or its work where that is too much.
fn solve_within(
    alloc: Global,
    net: Scaled,
    limits: &[Option<u8>],
    asked: &Asked,
) -> Result<HopSolving, AllocError>
    requires limits { AreLimits net.net limits.now }
    requires asked { IsAsked asked.now }
    ensures { IfOk result (OnRun net limits.now asked.now) }
{
    let options = match turn_options(net.net(), asked) {
        Ok(options) => options,
        Err(work) => return Ok(HopSolving::TooMuch(work)),
    };
    let h = solve_hops(alloc, net.net(), limits, &options)?;
    let _nodes = net.net().nodes();
    Ok(HopSolving::Done(net, h))
}

/// The certificate of a run within hop limits on the network that the rows stand for under the
/// options; or the first refusal, that of a limit that is too far behind the network's others; or the
/// work, where a given budget makes it too much.
pub fn solve_hop_rows(
    alloc: Global,
    rows: &RawNet<'_>,
    options: NetOptions,
    asked: &Asked,
) -> Result<HopSolving, AllocError>
    requires rows { AreNetRows rows.now }
    requires asked { IsAsked asked.now }
    ensures { IfOk result (IsHopSolving rows.now options asked.now) }
{
    let net = match scale(alloc, rows, options) {
        Ok(net) => net,
        Err(ScaleEnd::Refused(refusal)) => return Ok(HopSolving::Refused(refusal)),
        Err(ScaleEnd::Memory) => return Err(AllocError),
    };
    match hop_limits(alloc, rows, &net) {
        Ok(limits) => solve_within(alloc, net, &limits, asked),
        Err(ScaleEnd::Refused(refusal)) => Ok(HopSolving::Refused(refusal)),
        Err(ScaleEnd::Memory) => Err(AllocError),
    }
}
