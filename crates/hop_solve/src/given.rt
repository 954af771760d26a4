//! A network and its limits, with what is made of them once.

ghost use Rattle.std.specs.Prelude.{◌≡◌, ℕ, ◌<◌, if◌then◌else◌, length, slice_index};
ghost use Rattle.hop_paths.specs.Allowed.{is_unlimited};
ghost use Rattle.hop_check.specs.Tables.{AreCounts};

use dijkstra_paths::Graph;
use fixed_exp::Powers;
use flow_model::Net;

/// A network and the limit of each commodity, with what every turn and every bound needs: its graph, the powers that
/// lengths are made of, how many layers each node is asked for, and for each node 1 where a commodity without a limit
/// starts there, else 0.
#[derive(Drop)]
pub struct Given<'a> {
    /// The network.
    pub net: &'a Net,
    /// How many cells a path of each commodity may have; `None` for as many as it likes.
    pub limits: &'a [Option<u8>],
    /// Its graph.
    pub graph: &'a Graph,
    /// The powers that lengths are made of.
    pub powers: &'a Powers,
    /// How many layers each node is asked for, as a source.
    pub counts: &'a [u8],
    /// For each node 1 where a commodity without a limit starts there, else 0.
    pub marks: &'a [u64],
    ghost graph_is: { graph.now ≡ net.now },
    ghost limits_len: { length limits.now ≡ length net.now.commodities },
    ghost counts_are: { AreCounts net.now limits.now counts.now },
    ghost marks_len: { length marks.now ≡ net.now.nodes },
    ghost marks_are: { (v : ℕ) → v < net.now.nodes
        → slice_index marks.now v ≡ (if is_unlimited net.now limits.now v then 1 else 0) },
}
