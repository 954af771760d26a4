//! The core of a phase: a state machine over the events of numbered workers, and what holds after every list of legal events.
#![tactic(auto)]

ghost use Rattle.std.specs.Prelude.{◌≡◌, List};
ghost use Rattle.flow_core.specs.Core.{Terms, Event, AreLegal, State, start, after_schedule, IsStart};
ghost use Rattle.flow_core.specs.Laws.{Counts, Tickets, Loads, Reads};
ghost use Rattle.flow_core.specs.Phase.{EachIsComplete, HasStopped, IsFinished};

mod state;

pub use state::{Entry, Words, Worker};

/// The claims are the entries and the stops, and a stop comes only after all tickets.
pub fn counts()
    ensures { (t : Terms) (es : List Event) → IsStart t → AreLegal t (start t) es
        → Counts t (after_schedule t (start t) es) }
{}

/// The tickets are the numbers claimed, each in one entry.
pub fn tickets()
    ensures { (t : Terms) (es : List Event) → IsStart t → AreLegal t (start t) es
        → Tickets t (after_schedule t (start t) es) }
{}

/// A load is its base and what the entries added, and stays within its limit.
pub fn loads()
    ensures { (t : Terms) (es : List Event) → IsStart t → AreLegal t (start t) es
        → Loads t (after_schedule t (start t) es) }
{}

/// What a worker read lies between what it added before and the load less what it added since.
pub fn reads()
    ensures { (t : Terms) (es : List Event) → IsStart t → AreLegal t (start t) es
        → Reads t (after_schedule t (start t) es) }
{}

/// Where some worker has stopped and every entry is complete, each commodity has one path in one entry, the loads are the base and the amounts along these paths, and the entries are a phase.
pub fn finished()
    ensures { (t : Terms) (es : List Event) → IsStart t → AreLegal t (start t) es
        → HasStopped (after_schedule t (start t) es)
        → EachIsComplete t (after_schedule t (start t) es) → IsFinished t (after_schedule t (start t) es) }
{}
