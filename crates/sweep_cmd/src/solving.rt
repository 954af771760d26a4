//! The solves of a network with each single link closed.

ghost use Rattle.std.specs.Prelude.{◌<◌, ◌≤◌, IfOk};
ghost use Rattle.std.specs.Thread.{IsSync};
ghost use Rattle.solver_run.specs.Options.{AreOptions};
ghost use Rattle.sweep_cmd.specs.Asked.{alone};
ghost use Rattle.sweep_cmd.specs.Swept.{AreSwept, IsSwept};

use crate::asked::SweepOptions;
use crate::closing::{Closing, solve_without};
use crate::swept::Swept;
use claimed_calls::call_each;
use flow_model::Net;
use mcf_base::Gate;
use mcf_limits::MAX_LINKS;
use std::alloc::{AllocError, Global};
use std::thread::Threads;
use unit_scale::LinkMode;

/// For each of `links` links, in their order, what is kept of a solve of the network with that link's cells at capacity 0.
/// Each solve has one worker, and starts no thread of its own. Links are handed out one at a time to as many threads as there
/// are processors, at least two and at most 16, the caller's among them, and the call waits for them. Certificates are let go of
/// once their values are taken. A link for which memory ran out is tried once more when all others are done; `Err`: memory ran
/// out there too. The gate is passed after each claim of each solve.
pub fn sweep_solve<G: Gate, R: Threads + Sync>(
    rt: &R,
    alloc: Global,
    net: &Net,
    mode: LinkMode,
    links: u16,
    options: &SweepOptions,
    gate: &G,
) -> Result<Vec<Swept>, AllocError>
    requires few { links ≤ MAX_LINKS }
    requires options { 1 ≤ links → AreOptions net.now (alone options.now) }
    ensures { IfOk result (λ v. AreSwept mode net.now options.now links v.items) }
{
    if links == 0 {
        return Ok(Vec::new(alloc));
    }
    let swept = call_each(
        rt,
        alloc,
        links as usize,
        &|link: usize| -> Result<Swept, AllocError>
            requires { IsSync R.row × IsSync G.row × AreOptions net.now (alone options.now)
                × (link < MAX_LINKS) }
            ensures { IfOk result (IsSwept mode net.entry.now options.entry.now link) }
        {
            solve_without(
                rt,
                alloc,
                &Closing { net, mode, options },
                gate,
                link as u16,
            )
        },
    )?;
    Ok(swept)
}
