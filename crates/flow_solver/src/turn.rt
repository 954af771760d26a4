//! The turns of the hands in a phase, which any thread may take.

ghost use Rattle.std.specs.Prelude.{◌≡◌, ℕ, ◌<◌, IfOk, length, slice_index_or};
ghost use Rattle.std.specs.Arc.{arc_value};
ghost use Rattle.phase_engine.specs.Hands.{IsReady, Runs};
ghost use Rattle.flow_solver.specs.Turns.{AreWordsOf, CanBeTaken, IsTaken};
ghost use Rattle.flow_solver.specs.Shares.{HasHand, IsSomeTurn, IsTurnOf};

use crate::prepared::{Prepared, Task};
use crate::share::Share;
use claimed_calls::Crew;
use dijkstra_paths::Tree;
use dual_bound::Row;
use flow_model::Setting;
use load_table::Loads;
use mcf_base::Gate;
use phase_engine::{Hand, PhaseInput, Shared, Watch, take_turn};
use std::alloc::{AllocError, Global};
use std::sync::Arc;

/// The turn of one hand: what the phase is of, the words of its loads, and the rows of the bound before, at whose trees searches
/// begin. All turns of a phase share the words and the rows. The hand stands in a box, since a turn is moved a dozen times on its way to
/// a thread and back, and the hand is the most of it.
#[derive(Drop)]
pub struct Turn<'a, G> {
    /// The network, with what phases need.
    pub on: &'a Prepared<'a>,
    /// Where memory comes from.
    pub alloc: Global,
    /// The setting of the phase.
    pub setting: Setting,
    /// What the worker passes after each of its claims.
    pub gate: &'a G,
    /// The words of the loads.
    pub loads: Arc<Loads, Global>,
    /// The rows of the bound before.
    pub rows: Arc<Vec<Row>, Global>,
    /// The hand that works.
    pub hand: Box<Hand, Global>,
}

/// The turn with its hand after its work.
pub(crate) fn taken<'a, G: Watch>(turn: Turn<'a, G>) -> Turn<'a, G>
    requires { CanBeTaken turn }
    ensures { IsTaken turn.entry result }
{
    let Turn {
        on,
        alloc,
        setting,
        gate,
        loads,
        rows,
        hand,
    } = turn;
    let mut hand = hand;
    take_over(alloc, on, setting, gate, &loads, &rows, &mut hand);
    Turn {
        on,
        alloc,
        setting,
        gate,
        loads,
        rows,
        hand,
    }
}

/// The tree of each row.
pub(crate) fn trees_of(alloc: Global, rows: &[Row]) -> Result<Vec<&Tree>, AllocError> {
    rows.iter().map(|row| &row.tree).collect(alloc)
}

// The tree of each row, or none where there is no memory for them: a search needs no tree to begin at.
fn hints(alloc: Global, rows: &[Row]) -> Vec<&Tree> {
    match trees_of(alloc, rows) {
        Ok(trees) => trees,
        Err(_) => Vec::new(alloc),
    }
}

// The work of one hand over these words.
fn take_over<G: Watch>(
    alloc: Global,
    on: &Prepared<'_>,
    setting: Setting,
    gate: &G,
    loads: &Loads,
    rows: &[Row],
    hand: &mut Hand,
)
    requires words { AreWordsOf on.now.net.now setting loads.now }
    requires ready { IsReady loads.now hand.old }
    ensures { Runs loads.now hand.old hand.new }
{
    let trees = hints(alloc, rows);
    let input = PhaseInput {
        net: on.net,
        groups: on.groups,
        graph: on.graph,
        powers: on.powers,
        setting,
        trees: &trees,
    };
    let shared = Shared {
        input: &input,
        loads,
        gate,
    };
    take_turn(alloc, &shared, hand);
}

// The turn of a hand.
fn turn_of<'a, G: Gate>(
    task: &Task<'a, G>,
    loads: &Arc<Loads, Global>,
    rows: &Arc<Vec<Row>, Global>,
    hand: Hand,
) -> Result<Option<Share<'a, G>>, AllocError>
    requires words { AreWordsOf task.now.on.now.net.now task.now.setting (arc_value loads.now) }
    requires ready { IsReady (arc_value loads.now) hand }
    ensures { IfOk result (IsTurnOf (arc_value loads.now) hand) }
{
    Ok(Some(Share::Turn(Turn {
        on: task.on,
        alloc: task.alloc,
        setting: task.setting,
        gate: task.gate,
        loads: Arc::try_clone(loads)?,
        rows: Arc::try_clone(rows)?,
        hand: Box::new(task.alloc, hand)?,
    })))
}

// A turn for each hand, in their order.
fn turns_of<'a, G: Gate>(
    task: &Task<'a, G>,
    loads: &Arc<Loads, Global>,
    rows: &Arc<Vec<Row>, Global>,
    hands: Vec<Hand>,
) -> Result<Vec<Option<Share<'a, G>>>, AllocError>
    requires words { AreWordsOf task.now.on.now.net.now task.now.setting (arc_value loads.now) }
    requires ready { (k : ℕ) (d : _) → k < length hands.items
        → IsReady (arc_value loads.now) (slice_index_or hands.items k d) }
    ensures count { IfOk result (λ turns. length turns.items ≡ length hands.items) }
    ensures turns { IfOk result (λ turns. (k : ℕ) (d : _) (e : _) → k < length hands.items
        → IsTurnOf (arc_value loads.now) (slice_index_or hands.items k d) (slice_index_or turns.items k e)) }
{
    let mut turns = Vec::with_capacity(task.alloc, hands.len())?;
    for hand in hands {
        turns.push(turn_of(task, loads, rows, hand)?)?;
    }
    Ok(turns)
}

// The hand of a turn.
fn hand_of<G: Gate>(turn: Option<Share<'_, G>>) -> Hand
    requires { IsSomeTurn turn }
    ensures { HasHand turn.entry result }
{
    match turn {
        Some(Share::Turn(turn)) => Box::into_inner(turn.hand),
        _ => unreachable!(),
    }
}

// The hands of the turns, in their order.
fn hands_of<G: Gate>(
    alloc: Global,
    turns: Vec<Option<Share<'_, G>>>,
) -> Result<Vec<Hand>, AllocError>
    requires { (k : ℕ) (d : _) → k < length turns.items → IsSomeTurn (slice_index_or turns.items k d) }
    ensures count { IfOk result (λ hands. length hands.items ≡ length turns.entry.items) }
    ensures hands { IfOk result (λ hands. (k : ℕ) (d : _) (e : _) → k < length turns.entry.items
        → HasHand (slice_index_or turns.entry.items k d) (slice_index_or hands.items k e)) }
{
    let mut hands = Vec::with_capacity(alloc, turns.len())?;
    for turn in turns {
        hands.push(hand_of(turn))?;
    }
    Ok(hands)
}

/// What `lead` answers, which the caller's thread calls before it takes a turn, and the hands after their work, in their order: each turn
/// is taken in a thread of the crew, or in the caller's. `Err`: out of memory, or where the crew gave up, since a turn was under way
/// for minutes.
pub(crate) fn take_all<'a, G: Gate, T, F: FnMut() -> T>(
    task: &Task<'a, G>,
    crew: &mut Crew<'_, Share<'a, G>>,
    loads: &Arc<Loads, Global>,
    rows: &Arc<Vec<Row>, Global>,
    hands: Vec<Hand>,
    lead: &mut F,
) -> (T, Result<Vec<Hand>, AllocError>)
    requires words { AreWordsOf task.now.on.now.net.now task.now.setting (arc_value loads.now) }
    requires ready { (k : ℕ) (d : _) → k < length hands.items
        → IsReady (arc_value loads.now) (slice_index_or hands.items k d) }
    requires lead { F.pre lead.old }
    ensures lead { F.step lead.old result.0 lead.new }
    ensures count { IfOk result.1 (λ back. length back.items ≡ length hands.items) }
    ensures runs { IfOk result.1 (λ back. (k : ℕ) (d : _) → k < length hands.items
        → Runs (arc_value loads.now) (slice_index_or hands.items k d) (slice_index_or back.items k d)) }
{
    let mut turns = match turns_of(task, loads, rows, hands) {
        Ok(turns) => turns,
        Err(error) => return (lead(), Err(error)),
    };
    let (whole, made) = crew.work_beside(&mut turns, lead);
    if !whole {
        return (made, Err(AllocError));
    }
    (made, hands_of(task.alloc, turns))
}
