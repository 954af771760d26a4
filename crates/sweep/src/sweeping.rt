//! What a plan is worth with each single link closed.

ghost use Rattle.std.specs.Prelude.{◌≡◌, ◌≤◌, IfOk, length, map};
ghost use Rattle.unit_scale.specs.Names.{cells_of};
ghost use Rattle.whatif.specs.Planned.{evaluation_of};
ghost use Rattle.sweep.specs.Sweep.{sweep_evaluations};

use crate::slots::{fill_all, gathered};
use mcf_limits::MAX_LINKS;
use std::alloc::{AllocError, Global};
use std::thread::Threads;
use unit_scale::LinkMode;
use whatif::{Bounds, Plan};

/// For each of `links` links, in their order, both fractions of the plan with that link's cells at capacity 0 and every other
/// capacity as the plan has it. The plan has the cells of just these links. They are shared out among at most 16 threads,
/// each with a copy of the plan, and the call waits for these threads. `Err`: out of memory.
pub fn sweep_plan<R: Threads + Sync>(
    rt: &R,
    alloc: Global,
    plan: &Plan,
    mode: LinkMode,
    links: u16,
) -> Result<Vec<Bounds>, AllocError>
    requires few { links ≤ MAX_LINKS }
    requires cells { cells_of mode links ≤ length plan.now.caps }
    ensures { IfOk result (λ v. map evaluation_of v.items
        ≡ sweep_evaluations mode plan.now.net plan.now.proof plan.now.caps links) }
{
    let mut slots = vec![in alloc; None; links as usize]?;
    fill_all(rt, alloc, plan, mode, &mut slots);
    gathered(alloc, &slots)
}
