//! Rows that grow by a turn at a time.

ghost use Rattle.std.specs.Prelude.{◌≡◌};

use flow_paths::{PathStore, order_of, stored};
use mcf_limits::MAX_LENGTH;
use std::alloc::{AllocError, Global};
use std::marker::Model;

/// What the turns so far have routed. Contracts see it as its rows, one for each commodity and path, in the order
/// in which they first came.
#[derive(Drop)]
pub struct Tally {
    paths: PathStore,
}

impl Model for Tally {
    ghost use Rattle.std.specs.Prelude.{List};
    ghost use Rattle.flow_model.specs.Routing.{Row};

    ghost Value = { List Row };

    ghost view = { λ t. t.paths };
}

impl Tally {
    ghost use Rattle.std.specs.Prelude.{◌≡◌, ◌+◌, ◌≤◌, ◌<◌, [], List, length, IfOk, OnErr, OnOk};
    ghost use Rattle.flow_model.specs.Routing.{Row, carried};
    ghost use Rattle.route_tally.specs.Tally.{IsCollected, IsTally, TakesTurn};

    /// No turn, and no row.
    pub fn new(alloc: Global) -> Self
        ensures rows { result ≡ [] }
        ensures turns { IsCollected [] result }
    {
        Tally {
            paths: PathStore::new(alloc),
        }
    }

    /// How many rows there are: at most one for each turn.
    pub fn rows(&self) -> u32
        ensures { result ≡ length self.now }
    {
        self.paths.rows()
    }

    /// A turn that routes the amount, in units, for the commodity along the path: its row grows, or is a new one.
    /// `Err`: out of memory, and leaves the tally as it was.
    pub fn add(&mut self, k: u32, path: &[u16], amount: u64) -> Result<(), AllocError>
        requires room { length self.old < 4294967295 }
        requires weight { carried self.old k + amount ≤ MAX_LENGTH }
        ensures ok { OnOk result (TakesTurn self.old self.new record
            { commodity = k; walk = path.now; weight = amount }) }
        ensures most { length self.new ≤ length self.old + 1 }
        ensures err { OnErr result (self.new ≡ self.old) }
    {
        self.paths.add(k, path, amount)?;
        Ok(())
    }

    /// The rows in ascending order of commodity and then cells.
    pub fn ordered(self, alloc: Global) -> Result<PathStore, AllocError>
        ensures { IfOk result (λ rows. (turns : List Row) → IsCollected turns self
            → IsTally turns rows) }
    {
        let Tally { paths } = self;
        let order = order_of(alloc, &paths)?;
        let rows = stored(alloc, &paths, &order)?;
        Ok(rows)
    }
}
