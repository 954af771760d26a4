//! Loads, hands and history, from phase to phase.

ghost use Rattle.std.specs.Prelude.{◌≡◌, ℕ, ◌<◌, ◌≤◌, [], IfOk, OnOk, None, length, replicate, slice_index_or};
ghost use Rattle.std.specs.Arc.{arc_value};
ghost use Rattle.flow_model.specs.Least.{HasNoCut};
ghost use Rattle.flow_model.specs.Lengths.{IsSetting};
ghost use Rattle.flow_core.specs.Core.{IsStart};
ghost use Rattle.flow_core.specs.Phase.{terms_of};
ghost use Rattle.phase_engine.specs.Hands.{HasRoomOf, IsFresh, AreSameWorkers};
ghost use Rattle.phase_engine.specs.Routing.{IsRoutedPhase};
ghost use Rattle.flow_solver.specs.Turns.{IsOver};
ghost use Rattle.flow_solver.specs.Adding.{CanNote, HasBegun, HasNoted};
ghost use Rattle.flow_solver.specs.Search.{CanAddPhase, CanRoute, IsRouted, IsRoutedByCrew, IsSearch, phase_count};

use crate::PathHistory;
use crate::hands::{forget_all, forget_turns, new_hands};
use crate::noted::Sought;
use crate::noting::{name_routes_of, note_routes_of};
use crate::pace::Pace;
use crate::prepared::Task;
use crate::share::Share;
use crate::turn::{take_all, trees_of};
use claimed_calls::Crew;
use dual_bound::{Row, source_rows};
use fixed_exp::LengthTable;
use flow_model::Net;
use load_table::Loads;
use mcf_base::Gate;
use mcf_limits::{MAX_PHASES, MAX_WORKERS};
use phase_engine::{Hand, PhaseInput, finish, hand_out, phase};
use solver_run::Entry;
use std::alloc::{AllocError, Global};
use std::mem;
use std::sync::Arc;
use std::thread::Threads;

/// Room for bounds, from one to the next: a length for each cell, the lengths of the last bound, which those of the next one follow, and a
/// row for each source. Before the first bound there are none to follow.
#[derive(Drop)]
pub struct BoundRoom {
    /// The length of each cell.
    pub lengths: Vec<u64>,
    /// The lengths of the last bound; `None` before the first.
    pub kept: Option<LengthTable>,
    /// A row for each source.
    pub rows: Vec<Row>,
}

/// What some phases have made: the load of each cell, and who routed what; room for bounds, what was sought of the rows, and how work is
/// shared out with other threads. The last phase stands in the hands alone: its rows are noted when the next one has been routed or, where
/// other threads route it, beside that and beside the bound after it. So each worker has two hands, which route in turn; the spare ones are free for the next phase.
#[derive(Drop)]
pub struct Search {
    /// The load of each cell, in units.
    pub loads: Vec<u64>,
    /// Room for bounds.
    pub room: BoundRoom,
    /// The hands that routed last, one for each worker.
    pub hands: Vec<Hand>,
    /// The hands that are free for the next phase, one for each worker.
    pub spare: Vec<Hand>,
    /// The rows of paths, and who routed what in each phase.
    pub history: PathHistory,
    /// The rows that each commodity had in the last phases.
    pub sought: Sought,
    /// How work is shared out with other threads.
    pub pace: Pace,
}

// `count` zeros.
fn zeros(alloc: Global, count: usize) -> Result<Vec<u64>, AllocError>
    ensures { IfOk result (λ v. v.items ≡ replicate count 0) }
{
    let zeros = vec![in alloc; 0; count]?;
    Ok(zeros)
}

/// Before any phase.
pub fn new_search(alloc: Global, net: &Net, workers: u16) -> Result<Search, AllocError>
    requires some { 1 ≤ workers }
    requires few { workers ≤ MAX_WORKERS }
    ensures search { IfOk result (λ s. IsSearch net.now [] s) }
    ensures nothing { IfOk result (λ s. s.history.history ≡ []) }
    ensures hands { IfOk result (λ s. length s.hands.items ≡ workers) }
{
    let cells = net.cells().len();
    Ok(Search {
        loads: zeros(alloc, cells)?,
        room: BoundRoom {
            lengths: zeros(alloc, cells)?,
            kept: None,
            rows: source_rows(alloc, net)?,
        },
        hands: new_hands(alloc, net, workers)?,
        spare: new_hands(alloc, net, workers)?,
        history: PathHistory::new(alloc, net),
        sought: Sought::new(alloc),
        pace: Pace::new(),
    })
}

/// How many phases there are, after one or more: those that are noted, and the last one.
pub(crate) fn count_phases(search: &Search) -> u32
    requires { phase_count search.now ≤ MAX_PHASES }
    ensures { result ≡ phase_count search.now }
{
    search.history.phases() + 1
}

/// The history of all phases: the rows of the last one are noted.
pub(crate) fn whole_history(
    alloc: Global,
    net: &Net,
    search: Search,
) -> Result<PathHistory, AllocError>
    requires { CanNote net.now search.hands.items search.history [] }
    ensures { IfOk result (HasNoted net.now search.hands.items search.history) }
{
    let Search {
        hands,
        history,
        sought,
        ..
    } = search;
    let mut history = history;
    let mut sought = sought;
    let mut entries = Vec::with_capacity(alloc, net.commodities().len())?;
    note_routes_of(alloc, net, &hands, &mut history, &mut sought, &mut entries)?;
    Ok(history)
}

// One phase over words of its own. Searches begin at the trees of the rows, which the bound before has left. `Err`: out of memory.
fn phase_over<G: Gate, R: Threads + Sync>(
    rt: &R,
    task: &Task<'_, G>,
    rows: &[Row],
    loads: &mut [u64],
    hands: &mut [Hand],
) -> Result<(), AllocError>
    requires start { IsStart record {
      net = task.now.on.now.net.now;
      setting = task.now.setting;
      base = loads.old;
      workers =
          length hands.old;
    } }
    requires setting { IsSetting task.now.setting }
    requires no_cut { HasNoCut task.now.on.now.net.now }
    requires fresh { (k : ℕ) (d : _) → k < length hands.old
        → IsFresh task.now.on.now.net.now k (slice_index_or hands.old k d) }
    ensures ok { OnOk result (IsRoutedPhase task.now.on.now.net.now task.now.setting loads.old loads.new hands.new) }
    ensures back { AreSameWorkers hands.old hands.new }
    ensures turns { (k : ℕ) (d : _) → k < length hands.old → (slice_index_or hands.new k d).turn ≡ None }
    ensures rooms { (k : ℕ) (d : _) → k < length hands.old
        → HasRoomOf task.now.on.now.net.now (slice_index_or hands.new k d) }
{
    let on = task.on;
    let trees = trees_of(task.alloc, rows)?;
    let input = PhaseInput {
        net: on.net,
        groups: on.groups,
        graph: on.graph,
        powers: on.powers,
        setting: task.setting,
        trees: &trees,
    };
    let workers = hands.len() as u16;
    let words = Loads::new(task.alloc, on.net, on.groups, task.setting, loads, workers)?;
    match phase(rt, task.alloc, &input, words, loads, hands, task.gate) {
        Ok(()) => Ok(()),
        Err(_) => Err(AllocError),
    }
}

/// Routes one more phase with the spare hands, which then are the hands that routed last. `Err`: out of memory, and then the search can't go on.
pub(crate) fn route<G: Gate, R: Threads + Sync>(
    rt: &R,
    task: &Task<'_, G>,
    search: &mut Search,
) -> Result<(), AllocError>
    requires { CanRoute task.now.on.now.net.now task.now.setting search.old }
    ensures { OnOk result (IsRouted task.now.on.now.net.now task.now.setting search.old search.new) }
{
    let _commodities = task.on.net.commodities();
    mem::swap(&mut search.hands, &mut search.spare);
    forget_all(&mut search.hands);
    phase_over(
        rt,
        task,
        &search.room.rows,
        &mut search.loads,
        &mut search.hands,
    )
}

// The end of a phase over these words, after all turns. Should a turn share them still, which none does then, it is the whole phase
// instead, over words of its own, by threads of its own. `Err`: out of memory.
fn end_over<G: Gate, R: Threads + Sync>(
    rt: &R,
    task: &Task<'_, G>,
    rows: &[Row],
    words: Arc<Loads, Global>,
    loads: &mut [u64],
    hands: &mut [Hand],
) -> Result<(), AllocError>
    requires start { IsStart record {
      net = task.now.on.now.net.now;
      setting = task.now.setting;
      base = loads.old;
      workers =
          length hands.old;
    } }
    requires terms { (arc_value words).terms
        ≡ terms_of task.now.on.now.net.now task.now.setting loads.old (length hands.old) }
    requires setting { IsSetting task.now.setting }
    requires no_cut { HasNoCut task.now.on.now.net.now }
    requires over { (k : ℕ) (d : _) → k < length hands.old
        → IsOver task.now.on.now.net.now (arc_value words) k (slice_index_or hands.old k d) }
    ensures ok { OnOk result (IsRoutedPhase task.now.on.now.net.now task.now.setting loads.old loads.new hands.new) }
    ensures back { AreSameWorkers hands.old hands.new }
    ensures turns { (k : ℕ) (d : _) → k < length hands.old → (slice_index_or hands.new k d).turn ≡ None }
    ensures rooms { (k : ℕ) (d : _) → k < length hands.old
        → HasRoomOf task.now.on.now.net.now (slice_index_or hands.new k d) }
{
    let Ok(table) = Arc::try_unwrap(words) else {
        forget_turns(hands);
        return phase_over(rt, task, rows, loads, hands);
    };
    match finish(table, loads, hands) {
        Ok(()) => Ok(()),
        Err(_) => Err(AllocError),
    }
}

// As `phase_over`, with the turns in the threads of a crew: what `lead` answers, which the caller's thread calls before it takes a turn,
// and the hands after the phase. `Err`: out of memory, or where the crew gave up.
fn phase_with<'a, G: Gate, R: Threads + Sync, T, F: FnMut() -> T>(
    rt: &R,
    task: &Task<'a, G>,
    crew: &mut Crew<'_, Share<'a, G>>,
    rows: &Arc<Vec<Row>, Global>,
    loads: &mut [u64],
    hands: Vec<Hand>,
    lead: &mut F,
) -> (T, Result<Vec<Hand>, AllocError>)
    requires start { IsStart record {
      net = task.now.on.now.net.now;
      setting = task.now.setting;
      base = loads.old;
      workers =
          length hands.items;
    } }
    requires setting { IsSetting task.now.setting }
    requires no_cut { HasNoCut task.now.on.now.net.now }
    requires fresh { (k : ℕ) (d : _) → k < length hands.items
        → IsFresh task.now.on.now.net.now k (slice_index_or hands.items k d) }
    requires lead { F.pre lead.old }
    ensures lead { F.step lead.old result.0 lead.new }
    ensures count { IfOk result.1 (λ back. length back.items ≡ length hands.items) }
    ensures ok { IfOk result.1 (λ back.
        IsRoutedPhase task.now.on.now.net.now task.now.setting loads.old loads.new back.items) }
    ensures back { IfOk result.1 (λ back. AreSameWorkers hands.items back.items) }
    ensures turns { IfOk result.1 (λ back. (k : ℕ) (d : _) → k < length hands.items
        → (slice_index_or back.items k d).turn ≡ None) }
    ensures rooms { IfOk result.1 (λ back. (k : ℕ) (d : _) → k < length hands.items
        → HasRoomOf task.now.on.now.net.now (slice_index_or back.items k d)) }
{
    let on = task.on;
    let workers = hands.len() as u16;
    let made = Loads::new(task.alloc, on.net, on.groups, task.setting, loads, workers);
    let (table, first) = match made {
        Ok(words) => words,
        Err(error) => return (lead(), Err(error)),
    };
    let mut hands = hands;
    hand_out(&table, first, &mut hands);
    let words = match Arc::new(task.alloc, table) {
        Ok(words) => words,
        Err(error) => return (lead(), Err(error.into())),
    };
    let (answer, back) = take_all(task, crew, &words, rows, hands, lead);
    let mut back = match back {
        Ok(back) => back,
        Err(error) => return (answer, Err(error)),
    };
    match end_over(rt, task, rows, words, loads, &mut back) {
        Ok(()) => (answer, Ok(back)),
        Err(error) => (answer, Err(error)),
    }
}

// Whether the caller's thread, whose turn is the last one, has routed something.
fn has_routed(hands: &[Hand]) -> bool {
    match hands.last() {
        Some(hand) => hand.routes.len() > 0,
        None => false,
    }
}

/// As `route`, with a crew in whose threads the hands take their turns; meanwhile the first commodities of the phase before are
/// noted, whose entries stand in `entries` then. `Err`: out of memory, or where the crew gave up or a turn shares the rows still,
/// which no run does; and then the search can't go on.
pub(crate) fn route_with<'a, G: Gate, R: Threads + Sync>(
    rt: &R,
    task: &Task<'a, G>,
    crew: &mut Crew<'_, Share<'a, G>>,
    search: &mut Search,
    entries: &mut Vec<Entry>,
) -> Result<(), AllocError>
    requires can { CanAddPhase task.now.on.now.net.now task.now.setting search.old }
    requires none { entries.old.items ≡ [] }
    ensures routed { OnOk result (IsRoutedByCrew task.now.on.now.net.now task.now.setting search.old search.new) }
    ensures begun { OnOk result (HasBegun task.now.on.now.net.now search.old.hands.items
        search.old.history search.new.history entries.new.items) }
{
    let alloc = task.alloc;
    let net = task.on.net;
    let commodities = net.commodities();
    let first = search.pace.first_of(commodities.len());
    forget_all(&mut search.spare);
    let hands = mem::replace(&mut search.spare, Vec::new(alloc));
    let rows = Arc::new(alloc, mem::replace(&mut search.room.rows, Vec::new(alloc)))?;
    let before = search.hands.as_slice();
    let history = &mut search.history;
    let sought = &mut search.sought;
    let mut name = || -> Result<(), AllocError>
        requires { CanNote net.now before.now history.now entries.now.items
            × (first ≤ length net.now.commodities) × (length entries.now.items ≤ first) }
        ensures { OnOk result (HasBegun net.entry.now before.entry.now
            history.entry.now history.exit.now entries.exit.now.items) }
    { name_routes_of(alloc, net, before, history, sought, entries, first) };
    let loads = search.loads.as_mut_slice();
    let (begun, back) = phase_with(rt, task, crew, &rows, loads, hands, &mut name);
    begun?;
    search.spare = mem::replace(&mut search.hands, back?);
    let Ok(rows) = Arc::try_unwrap(rows) else {
        return Err(AllocError);
    };
    search.room.rows = rows;
    let has_waited = crew.last_waited_for().is_some();
    let had_time = has_waited || has_routed(&search.hands);
    search.pace = search.pace.after_routing(had_time, crew.rests());
    crew.judge();
    Ok(())
}
