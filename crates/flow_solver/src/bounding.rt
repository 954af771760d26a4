//! The rows of a phase are noted, one phase more is routed, and a bound is made of its loads.

ghost use Rattle.std.specs.Prelude.{◌≡◌, ◌<◌, ◌≤◌, [], IfOk, OnOk, max};
ghost use Rattle.flow_solver.specs.Adding.{CanBeNoted, CanNote, HasNoted, IsNoted};
ghost use Rattle.flow_solver.specs.Search.{CanAddPhase, CanBeBounded, CanNoteAndBound, HasAdded, HasNotedSpare, IsBoundRoom, IsLesserUnder, KeepsLoadsAndHands};

use crate::filling::bound_with;
use crate::following::put_lengths;
use crate::noting::note_routes_of;
use crate::places::places_of;
use crate::prepared::{Prepared, Run, Task};
use crate::search::{BoundRoom, Search, route, route_with};
use crate::share::Share;
use claimed_calls::Crew;
use dual_bound::{Bounded, Team, lesser_in};
use flow_model::Setting;
use mcf_base::Gate;
use solver_run::Entry;
use std::alloc::{AllocError, Global};
use std::thread::{Threads, join_mut};

// From this number of commodities on, noting the rows of their paths takes longer than the start of a thread.
const PATHS_OF_A_THREAD: usize = 4_096;

// From this number of sources times cells on, several threads make a bound sooner than one. Other processors have to be woken for them
// in each phase, which can take longer than starting them.
const WORK_OF_SEVERAL: usize = 1_000_000;

/// The smaller of `earlier` and the bound of the lengths under these loads. `Err`: out of memory.
pub(crate) fn bound_of<R: Threads + Sync>(
    team: &Team<'_, R>,
    alloc: Global,
    on: &Prepared<'_>,
    setting: &Setting,
    loads: &[u64],
    room: &mut BoundRoom,
    earlier: Option<Bounded>,
) -> Result<Bounded, AllocError>
    requires can { CanBeBounded on.now.net.now setting.now loads.now room.old }
    ensures room { OnOk result (IsBoundRoom on.now.net.now room.new) }
    ensures bound { IfOk result (IsLesserUnder on.now.net.now setting.now loads.now earlier) }
{
    let BoundRoom {
        lengths,
        kept,
        rows,
    } = room;
    put_lengths(alloc, on, setting, loads, kept, lengths)?;
    lesser_in(team, alloc, on.net, on.graph, lengths, rows, earlier)
}

/// The number of threads to make a bound and to note rows in, at most `most`; 1 where one worker has routed a small network.
pub(crate) fn threads_for(on: &Prepared<'_>, workers: usize, most: u16) -> u16
    ensures { result ≤ max most 1 }
{
    let work = on.groups.count() as usize * on.net.cells().len();
    if workers == 1 && work < WORK_OF_SEVERAL {
        1
    } else {
        most
    }
}

// How many of `threads` threads are left for a bound while one notes the rows of `paths` paths. None where noting takes no longer
// than the start of a thread, or there is one thread alone.
fn threads_beside(paths: usize, threads: u16) -> u16
    ensures { result < max threads 1 }
{
    if paths < PATHS_OF_A_THREAD {
        return 0;
    }
    threads.saturating_sub(1)
}

// Notes the rows of the phase that the spare hands have routed, and gives the smaller of `earlier` and the bound under the loads of all
// phases. `Err`: out of memory, and the search cannot go on.
fn note_and_bound<G: Gate, R: Threads + Sync>(
    team: &Team<'_, R>,
    task: &Task<'_, G>,
    search: &mut Search,
    earlier: Option<Bounded>,
) -> Result<Bounded, AllocError>
    requires { CanNoteAndBound task.now.on.now.net.now task.now.setting search.old [] }
    ensures kept { KeepsLoadsAndHands search.old search.new }
    ensures noted { OnOk result (HasNotedSpare task.now.on.now.net.now search.old search.new) }
    ensures bound { IfOk result
        (IsLesserUnder task.now.on.now.net.now task.now.setting search.old.loads.items earlier) }
{
    let alloc = task.alloc;
    let on = task.on;
    let loads = search.loads.as_slice();
    let mut entries = Vec::with_capacity(alloc, on.net.commodities().len())?;
    note_routes_of(
        alloc,
        on.net,
        &search.spare,
        &mut search.history,
        &mut search.sought,
        &mut entries,
    )?;
    bound_of(
        team,
        alloc,
        on,
        &task.setting,
        loads,
        &mut search.room,
        earlier,
    )
}

// As `note_and_bound`, with the rows noted in a thread of their own, beside the bound.
fn note_beside_bound<G: Gate, R: Threads + Sync>(
    team: &Team<'_, R>,
    task: &Task<'_, G>,
    search: &mut Search,
    earlier: Option<Bounded>,
) -> Result<Bounded, AllocError>
    requires { CanNoteAndBound task.now.on.now.net.now task.now.setting search.old [] }
    ensures kept { KeepsLoadsAndHands search.old search.new }
    ensures noted { OnOk result (HasNotedSpare task.now.on.now.net.now search.old search.new) }
    ensures bound { IfOk result
        (IsLesserUnder task.now.on.now.net.now task.now.setting search.old.loads.items earlier) }
{
    let alloc = task.alloc;
    let on = task.on;
    let net = on.net;
    let setting = &task.setting;
    let places = places_of(alloc, net, &search.spare)?;
    let places = places.as_slice();
    let loads = search.loads.as_slice();
    let history = &mut search.history;
    let sought = &mut search.sought;
    let room = &mut search.room;
    let mut earlier = earlier;
    let earlier = &mut earlier;
    let mut note = || -> Result<(), AllocError>
        requires { CanBeNoted net.now history.now places.now }
        ensures { (history.exit.now.commodities ≡ history.entry.now.commodities)
            × OnOk result (IsNoted net.entry.now places.entry.now history.entry.now history.exit.now) }
    { history.note_phase(alloc, net, places, sought) };
    let mut bound = || -> Result<Bounded, AllocError>
        requires { CanBeBounded on.now.net.now setting.now loads.now room.now }
        ensures { OnOk result (IsBoundRoom on.entry.now.net.now room.exit.now)
            × IfOk result (IsLesserUnder on.entry.now.net.now setting.entry.now loads.entry.now earlier.entry.now) }
    { bound_of(team, alloc, on, setting, loads, room, earlier.take()) };
    let (noted, bounded) = join_mut(team.rt, &mut note, &mut bound);
    noted?;
    bounded
}

// Routes one more phase, and gives the smaller of `earlier` and the bound under the loads after it, under the same setting. The phase
// before is noted, beside the bound where that pays and there may be several threads. `Err`: out of memory, and the search cannot go on.
fn phase_alone<G: Gate, R: Threads + Sync>(
    run: &Run<'_, G, R>,
    task: &Task<'_, G>,
    search: &mut Search,
    earlier: Option<Bounded>,
) -> Result<Bounded, AllocError>
    requires { CanAddPhase task.now.on.now.net.now task.now.setting search.old }
    ensures added { OnOk result (HasAdded task.now.on.now.net.now task.now.setting search.old search.new) }
    ensures bound { IfOk result
        (IsLesserUnder task.now.on.now.net.now task.now.setting search.new.loads.items earlier) }
{
    route(run.rt, task, search)?;
    let threads = threads_for(task.on, search.hands.len(), run.threads);
    let beside = threads_beside(task.on.net.commodities().len(), threads);
    if beside == 0 {
        let team = Team {
            rt: run.rt,
            threads,
        };
        note_and_bound(&team, task, search, earlier)
    } else {
        let team = Team {
            rt: run.rt,
            threads: beside,
        };
        note_beside_bound(&team, task, search, earlier)
    }
}

// As `note_and_bound`, with some rows of the bound filled by `threads` threads of the crew. The first commodities of the phase have
// these entries; the caller's thread notes the others, before it fills rows of the bound too. `Err`: out of memory, or the crew gave up,
// and the search cannot go on.
fn note_with_bound<'a, G: Gate>(
    task: &Task<'a, G>,
    crew: &mut Crew<'_, Share<'a, G>>,
    search: &mut Search,
    entries: &mut Vec<Entry>,
    threads: u16,
    earlier: Option<Bounded>,
) -> Result<Bounded, AllocError>
    requires { CanNoteAndBound task.now.on.now.net.now task.now.setting search.old entries.old.items }
    ensures kept { KeepsLoadsAndHands search.old search.new }
    ensures noted { OnOk result (HasNotedSpare task.now.on.now.net.now search.old search.new) }
    ensures bound { IfOk result
        (IsLesserUnder task.now.on.now.net.now task.now.setting search.old.loads.items earlier) }
{
    let alloc = task.alloc;
    let net = task.on.net;
    let others = search.hands.len().saturating_sub(1);
    let idle = others.saturating_sub(threads as usize);
    let split = search.pace.split(search.room.rows.len(), threads, idle);
    let loads = search.loads.as_slice();
    let hands = search.spare.as_slice();
    let history = &mut search.history;
    let sought = &mut search.sought;
    let room = &mut search.room;
    let mut note = || -> Result<(), AllocError>
        requires { CanNote net.now hands.now history.now entries.now.items }
        ensures { OnOk result (HasNoted net.entry.now hands.entry.now history.entry.now history.exit.now) }
    { note_routes_of(alloc, net, hands, history, sought, entries) };
    let (noted, bounded) = bound_with(task, loads, room, crew, split, earlier, &mut note);
    search.pace = search
        .pace
        .after_bound(threads, crew.last_waited_for(), crew.rests());
    noted?;
    bounded
}

// As `phase_alone`, with a crew, in whose threads hands take their turns and rows of the bound are filled. `Err`: out of
// memory, or the crew gave up, and the search cannot go on.
fn phase_by_crew<'a, G: Gate, R: Threads + Sync>(
    run: &Run<'a, G, R>,
    task: &Task<'a, G>,
    crew: &mut Crew<'_, Share<'a, G>>,
    search: &mut Search,
    earlier: Option<Bounded>,
) -> Result<Bounded, AllocError>
    requires { CanAddPhase task.now.on.now.net.now task.now.setting search.old }
    ensures added { OnOk result (HasAdded task.now.on.now.net.now task.now.setting search.old search.new) }
    ensures bound { IfOk result
        (IsLesserUnder task.now.on.now.net.now task.now.setting search.new.loads.items earlier) }
{
    let mut entries = Vec::with_capacity(task.alloc, task.on.net.commodities().len())?;
    route_with(run.rt, task, crew, search, &mut entries)?;
    note_with_bound(task, crew, search, &mut entries, run.others(), earlier)
}

/// Routes one more phase, by the crew if there is one, and gives the smaller of `earlier` and the bound under the loads after it, under
/// the same setting. The phase before is noted. `Err`: out of memory, or the crew gave up, and the search cannot go on.
pub(crate) fn one_phase<'a, G: Gate, R: Threads + Sync>(
    run: &Run<'a, G, R>,
    task: &Task<'a, G>,
    crew: Option<&mut Crew<'_, Share<'a, G>>>,
    search: &mut Search,
    earlier: Option<Bounded>,
) -> Result<Bounded, AllocError>
    requires { CanAddPhase task.now.on.now.net.now task.now.setting search.old }
    ensures added { OnOk result (HasAdded task.now.on.now.net.now task.now.setting search.old search.new) }
    ensures bound { IfOk result
        (IsLesserUnder task.now.on.now.net.now task.now.setting search.new.loads.items earlier) }
{
    match crew {
        Some(crew) => phase_by_crew(run, task, crew, search, earlier),
        None => phase_alone(run, task, search, earlier),
    }
}
