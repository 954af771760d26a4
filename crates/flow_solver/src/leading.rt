//! Several phases with threads that stay beside the caller's.

ghost use Rattle.std.specs.Prelude.{◌<◌, ◌≤◌, IsTrue, IfOk, IsSome, IfSome};
ghost use denote.Param.Send.{IsSync};
ghost use Rattle.claimed_calls.specs.Posts.{AreAt};
ghost use Rattle.solver_run.specs.Options.{AreOptions};
ghost use Rattle.flow_solver.specs.Leading.{CanGoOn, GoesOn};
ghost use Rattle.flow_solver.specs.Reached.{IsMet, IsReached};
ghost use Rattle.flow_solver.specs.Search.{phase_count};

use crate::prepared::{Prepared, Run};
use crate::reached::{Reached, is_met, next};
use crate::search::count_phases;
use crate::share::Share;
use claimed_calls::{Crew, Mate, Post, Seats, stay_beside};
use flow_model::Net;
use mcf_base::Gate;
use solver_run::SolveOptions;
use std::alloc::{AllocError, Global};
use std::sync::atomic::{AtomicBool, Ordering};
use std::thread::Threads;

// About two milliseconds on processors that pause for long between polls, and half a millisecond on others.
const LEAST_POLLS: u64 = 40_000;

// More polls than a search takes for each cell.
const POLLS_OF_A_CELL: u64 = 16;

// More polls than it takes to add a commodity's amount to the loads of its path.
const POLLS_OF_A_COMMODITY: u64 = 64;

// Whether the gap is open yet, and the budget has one phase more.
fn goes_on(net: &Net, options: &SolveOptions, reached: &Reached) -> bool
    requires options { AreOptions net.now options.now }
    requires reached { IsReached net.now options.now reached.now }
    requires budget { phase_count reached.now.search ≤ options.now.phases }
    ensures unmet { IsTrue result → ¬ (IsMet net.now options.now reached.now) }
    ensures budget { IsTrue result → phase_count reached.now.search < options.now.phases }
{
    if is_met(net, options, reached) {
        return false;
    }
    count_phases(&reached.search) < options.phases
}

// Polls for longer than a thread that has a processor takes to route the commodities of one source: it searches all cells, and adds the
// amount of each commodity.
fn patience(on: &Prepared<'_>) -> u64 {
    let cells = on.net.cells().len() as u64;
    let commodities = on.net.commodities().len() as u64 / (on.groups.count() as u64).max(1);
    let by_cells = cells.saturating_mul(POLLS_OF_A_CELL);
    let by_commodities = commodities.saturating_mul(POLLS_OF_A_COMMODITY);
    by_cells.saturating_add(by_commodities).max(LEAST_POLLS)
}

// One phase or more with this crew, until the gap is met, the budget is spent or a thread has left.
fn phases_with<'a, G: Gate, R: Threads + Sync>(
    run: &Run<'a, G, R>,
    crew: &mut Crew<'_, Share<'a, G>>,
    reached: Reached,
) -> Result<Reached, AllocError>
    requires { CanGoOn run.now.on.now.net.now run.now.options.now reached }
    ensures { IfOk result (GoesOn run.now.on.now.net.now run.now.options.now reached) }
{
    let mut reached = reached;
    let whole = crew.is_there();
    'phases: loop {
        reached = next(run, Some(crew), reached)?;
        if !goes_on(run.on.net, run.options, &reached) {
            return Ok(reached);
        }
        if whole && !crew.rests() && !crew.is_there() {
            return Ok(reached);
        }
    }
}

// Leads the crew for one phase or more, and then tells its threads to go.
fn led<'a, G: Gate, R: Threads + Sync>(
    run: &Run<'a, G, R>,
    crew: Crew<'_, Share<'a, G>>,
    closed: &AtomicBool,
    reached: Reached,
) -> Result<Reached, AllocError>
    requires { CanGoOn run.now.on.now.net.now run.now.options.now reached }
    ensures { IfOk result (GoesOn run.now.on.now.net.now run.now.options.now reached) }
{
    let mut crew = crew;
    let result = phases_with(run, &mut crew, reached);
    closed.store(true, Ordering::SeqCst);
    result
}

// A post at which shares are handed over, with its seats.
fn new_post<'a, G: Gate>(
    alloc: Global,
) -> Result<(Post<Share<'a, G>>, Seats<Share<'a, G>>), AllocError>
    ensures { IfOk result (λ r. AreAt r.0.table.shared.table_id r.1.end.table_id r.1.mate.table_id) }
{
    Post::new(alloc)
}

// Takes on a thread at the post.
fn take_on<'a, 'c, G: Gate>(
    crew: &mut Crew<'c, Share<'a, G>>,
    post: &'c Post<Share<'a, G>>,
    seats: Seats<Share<'a, G>>,
) -> Result<Mate<'c, Share<'a, G>>, AllocError>
    requires { AreAt post.now.table.shared.table_id seats.end.table_id seats.mate.table_id }
{
    crew.take_on(post, seats)
}

// Calls `lead`, and has a new thread stay beside it for shares, if one can be started.
fn share_beside<G: Gate, R: Threads + Sync, T, F: FnMut() -> T>(
    rt: &R,
    mate: Mate<'_, Share<'_, G>>,
    closed: &AtomicBool,
    lead: &mut F,
) -> T
    requires { F.pre lead.old }
    ensures { F.step lead.old result lead.new }
{
    stay_beside(rt, mate, closed, lead)
}

// Takes on `count` more threads, and leads all of them.
#[cycle(with_mates)]
fn with_mates<'a, G: Gate, R: Threads + Sync>(
    run: &Run<'a, G, R>,
    count: usize,
    crew: Crew<'_, Share<'a, G>>,
    closed: &AtomicBool,
    reached: Reached,
) -> Result<Reached, AllocError>
    requires { CanGoOn run.now.on.now.net.now run.now.options.now reached }
    ensures { IfOk result (GoesOn run.now.on.now.net.now run.now.options.now reached) }
{
    if count == 0 {
        return led(run, crew, closed, reached);
    }
    match new_post(run.alloc) {
        Ok((post, seats)) => with_mate(run, count - 1, &post, seats, crew, closed, reached),
        Err(_) => led(run, crew, closed, reached),
    }
}

// Takes on a thread at the post and `others` more, and leads all of them.
#[cycle(with_mates)]
fn with_mate<'a, 'c, G: Gate, R: Threads + Sync>(
    run: &Run<'a, G, R>,
    others: usize,
    post: &'c Post<Share<'a, G>>,
    seats: Seats<Share<'a, G>>,
    crew: Crew<'c, Share<'a, G>>,
    closed: &AtomicBool,
    reached: Reached,
) -> Result<Reached, AllocError>
    requires can { CanGoOn run.now.on.now.net.now run.now.options.now reached }
    requires seats { AreAt post.now.table.shared.table_id seats.end.table_id seats.mate.table_id }
    ensures { IfOk result (GoesOn run.now.on.now.net.now run.now.options.now reached) }
{
    let mut crew = crew;
    let mate = match take_on(&mut crew, post, seats) {
        Ok(mate) => mate,
        Err(_) => return led(run, crew, closed, reached),
    };
    let mut start = Some((crew, reached));
    let mut lead = || -> Result<Reached, AllocError>
        requires { IsSync R.row × IsSync G.row × IsSome start
            × IfSome start (λ s. CanGoOn run.now.on.now.net.now run.now.options.now s.1) }
        ensures { IfOk result (λ r. IfSome start.entry
            (λ s. GoesOn run.entry.now.on.now.net.now run.entry.now.options.now s.1 r)) }
    {
        match start.take() {
            Some((crew, reached)) => with_mates(run, others, crew, closed, reached),
            None => unreachable!(),
        }
    };
    share_beside(run.rt, mate, closed, &mut lead)
}

/// One or more further phases, with a thread beside the caller's for each other hand. It ends where the gap is met or the budget is
/// spent, or sooner, since threads end that have had nothing to do for a while. `Err`: out of memory, or the crew gave up.
pub(crate) fn further<'a, G: Gate, R: Threads + Sync>(
    run: &Run<'a, G, R>,
    reached: Reached,
) -> Result<Reached, AllocError>
    requires { CanGoOn run.now.on.now.net.now run.now.options.now reached }
    ensures { IfOk result (GoesOn run.now.on.now.net.now run.now.options.now reached) }
{
    let others = reached.search.hands.len() - 1;
    let closed = AtomicBool::new(false);
    with_mates(
        run,
        others,
        Crew::new(run.alloc, patience(run.on)),
        &closed,
        reached,
    )
}
