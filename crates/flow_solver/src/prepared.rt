//! A network with what is made of it once, and a run on it.

ghost use Rattle.std.specs.Prelude.{◌≡◌};

use dijkstra_paths::Graph;
use fixed_exp::Powers;
use flow_model::{Groups, Net, Setting};
use solver_run::SolveOptions;
use std::alloc::Global;

/// A network with what every phase and every bound of it needs: its groups, its graph, and the powers that lengths are
/// made of.
#[derive(Drop)]
pub struct Prepared<'a> {
    /// The network.
    pub net: &'a Net,
    /// Its commodities by their sources.
    pub groups: &'a Groups,
    /// Its graph.
    pub graph: &'a Graph,
    /// The powers that lengths are made of.
    pub powers: &'a Powers,
    ghost groups_are: { groups.now ≡ net.now },
    ghost graph_is: { graph.now ≡ net.now },
}

/// A run on a network: its options, the gate, and in how many threads a bound is made at most, one of which may note rows meanwhile.
#[derive(Drop)]
pub(crate) struct Run<'a, G, R> {
    pub rt: &'a R,
    pub alloc: Global,
    pub on: &'a Prepared<'a>,
    pub options: &'a SolveOptions,
    pub gate: &'a G,
    pub threads: u16,
}

/// What a phase is of: a network, the setting of its lengths, and the gate.
#[derive(Drop)]
pub(crate) struct Task<'a, G> {
    pub on: &'a Prepared<'a>,
    pub alloc: Global,
    pub setting: Setting,
    pub gate: &'a G,
}

impl<'a, G, R> Run<'a, G, R> {
    /// How many threads of a crew fill rows of a bound at most, beside the caller's.
    pub(crate) fn others(&self) -> u16 {
        self.threads.min(self.options.workers).saturating_sub(1)
    }
}
