//! What the workers of a phase go by.

ghost use Rattle.std.specs.Prelude.{◌≡◌};

use dijkstra_paths::{Graph, Tree};
use fixed_exp::Powers;
use flow_model::{Groups, Net, Setting};
use load_table::Loads;

/// What a phase is of: a network with its groups and its graph, the powers that lengths are made of, and the setting. The trees are
/// of earlier searches, one for each group's source in the order of groups; they are hints, so there may be fewer, or others.
#[derive(Drop)]
pub struct PhaseInput<'a> {
    /// The network.
    pub net: &'a Net,
    /// Its commodities by their sources.
    pub groups: &'a Groups,
    /// Its graph.
    pub graph: &'a Graph,
    /// The powers that lengths are made of.
    pub powers: &'a Powers,
    /// The setting.
    pub setting: Setting,
    /// The trees of earlier searches.
    pub trees: &'a [&'a Tree],
    ghost groups_are: { groups.now ≡ net.now },
    ghost graph_is: { graph.now ≡ net.now },
}

/// What all workers of a phase share: its input, the words of the loads, and the gate.
#[derive(Drop)]
pub struct Shared<'a, G> {
    /// What the phase is of.
    pub input: &'a PhaseInput<'a>,
    /// The words of the loads.
    pub loads: &'a Loads,
    /// What each worker passes after each of its claims.
    pub gate: &'a G,
}
