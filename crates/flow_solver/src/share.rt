//! What a thread of a crew is handed.

use crate::parts::{Part, filled};
use crate::turn::{Turn, taken};
use claimed_calls::Job;
use mcf_base::Gate;

/// A share of the work on a phase: the turn of a hand, or a part of the rows of a bound.
#[derive(Drop)]
pub enum Share<'a, G> {
    /// The turn of a hand in a phase.
    Turn(Turn<'a, G>),
    /// A part of the rows of a bound.
    Part(Part<'a>),
}

impl<'a, G: Gate> Job for Share<'a, G> {
    ghost use Rattle.flow_solver.specs.Shares.{CanBeDone, IsDoneOf};

    ghost asks = { CanBeDone };

    ghost does = { IsDoneOf };

    fn work(self) -> Self {
        match self {
            Share::Turn(turn) => Share::Turn(taken(turn)),
            Share::Part(part) => Share::Part(filled(part)),
        }
    }
}
