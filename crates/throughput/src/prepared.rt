//! What a run works with and does not change.

ghost use Rattle.std.specs.Prelude.{◌≡◌};

use dijkstra_paths::Graph;
use fixed_exp::Powers;
use flow_model::{Cell, Net};

/// A network with its graph, the powers that lengths are made of, a gate for each commodity, and the least capacity of
/// cells and gates.
#[derive(Drop)]
pub struct Prepared<'a> {
    /// The network.
    pub net: &'a Net,
    /// Its graph.
    pub graph: &'a Graph,
    /// The powers that lengths are made of.
    pub powers: &'a Powers,
    /// The gate of each commodity: its capacity is the commodity's amount.
    pub gates: &'a [Cell],
    /// The least capacity of cells and gates, in units.
    pub least: u64,
    ghost graph_is: { graph.now ≡ net.now },
}
