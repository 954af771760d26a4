//! What a solve answers: a proof, and who routed what in each phase.

ghost use Rattle.std.specs.Prelude.{◌≡◌};

use crate::Entries;
use flow_paths::Proof;
use solver_run::Entry;
use std::marker::Model;

/// A proof, and for each phase an entry for each commodity, which names a path row of the proof.
#[derive(Drop)]
pub struct Solved {
    proof: Proof,
    entries: Entries,
}

impl Model for Solved {
    ghost use Rattle.std.specs.Prelude.{◌≡◌, All, length};
    ghost use Rattle.solver_run.specs.History.{SolvedView};

    ghost Value = { SolvedView };

    ghost view = { λ s. record { proof = s.proof; history = s.entries.phases } };

    ghost invariant = { λ s. All (λ p. length p ≡ s.entries.commodities) s.entries.phases };
}

impl Solved {
    ghost use Rattle.std.specs.Prelude.{◌≡◌, ◌-◌, ◌<◌, ◌≤◌, [], All, Some, length, slice_get, slice_index_or};

    /// The proof with its history, of as many entries in each phase as there are commodities.
    pub(crate) fn new(proof: Proof, entries: Entries) -> Self
        requires { All (λ p. length p ≡ entries.commodities) entries.phases }
        ensures { result ≡ record { proof = proof; history = entries.phases } }
    {
        Solved { proof, entries }
    }

    /// The certificate as a value.
    pub fn proof(&self) -> &Proof
        ensures { result.now ≡ self.now.proof }
    {
        &self.proof
    }

    /// How many phases there were.
    pub fn phases(&self) -> u32
        ensures { result ≡ length self.now.history }
    {
        self.entries.phases()
    }

    /// Who routed the commodity in the phase, and the number of the row with its path. The first phase is 1.
    pub fn entry(&self, phase: u32, k: u32) -> Entry
        requires first { 1 ≤ phase }
        requires phase { phase ≤ length self.now.history }
        requires k { k < length (slice_index_or self.now.history (phase - 1) []) }
        ensures { slice_get (slice_index_or self.now.history (phase - 1) []) k ≡ Some result }
    {
        self.entries.entry(phase - 1, k)
    }
}
