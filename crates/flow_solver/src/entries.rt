//! An entry for each commodity in each phase, in one buffer.

ghost use Rattle.std.specs.Prelude.{◌≡◌, ◌*◌, length};

use mcf_limits::MAX_PHASES;
use solver_run::Entry;
use std::alloc::{AllocError, Global};
use std::marker::Model;

/// Entries phase by phase, as many in each as there are commodities. Contracts see that number and a list of
/// phases.
#[derive(Drop)]
pub struct Entries {
    commodities: u32,
    phases: u32,
    flat: Vec<Entry>,
}

impl Model for Entries {
    ghost use Rattle.std.specs.Prelude.{◌≡◌, ◌*◌, length};
    ghost use Rattle.flow_solver.specs.Phases.{EntriesView, by_phase};

    ghost Value = { EntriesView };

    ghost view = { λ e. record { commodities = e.commodities; phases = by_phase e.commodities e.phases e.flat.items } };

    ghost invariant = { λ e. length e.flat.items ≡ e.phases * e.commodities };
}

impl Entries {
    ghost use Rattle.std.specs.Prelude.{◌≡◌, ◌<◌, ◌++◌, ◌∷◌, [], All, Some, OnOk, OnErr, length, map, slice_get, slice_index_or};
    ghost use Rattle.solver_run.specs.declared.options.Entry.{Entry};
    ghost use Rattle.flow_solver.specs.Phases.{renumbered, NamesBelow};

    /// No phase yet, of `commodities` commodities.
    pub fn new(alloc: Global, commodities: u32) -> Self
        ensures { result ≡ record { commodities = commodities; phases = [] } }
    {
        Entries {
            commodities,
            phases: 0,
            flat: Vec::new(alloc),
        }
    }

    /// How many commodities there are.
    pub fn commodities(&self) -> u32
        ensures { result ≡ self.now.commodities }
    {
        self.commodities
    }

    /// How many phases there are.
    pub fn phases(&self) -> u32
        ensures { result ≡ length self.now.phases }
    {
        self.phases
    }

    /// The entry of a commodity in a phase.
    pub fn entry(&self, phase: u32, k: u32) -> Entry
        requires phase { phase < length self.now.phases }
        requires k { k < self.now.commodities }
        ensures { slice_get (slice_index_or self.now.phases phase []) k ≡ Some result }
    {
        let place = phase as usize * self.commodities as usize + k as usize;
        self.flat.as_slice()[place]
    }

    /// Appends a phase.
    pub(crate) fn push(&mut self, entries: &[Entry]) -> Result<(), AllocError>
        requires count { length entries.now ≡ self.old.commodities }
        requires room { length self.old.phases < MAX_PHASES }
        ensures commodities { self.new.commodities ≡ self.old.commodities }
        ensures ok { OnOk result (self.new.phases ≡ self.old.phases ++ entries.now ∷ []) }
        ensures err { OnErr result (self.new.phases ≡ self.old.phases) }
    {
        self.flat.extend_from_slice(entries)?;
        self.phases += 1;
        Ok(())
    }

    /// Gives each row that is named its new number.
    pub(crate) fn renumber(&mut self, numbers: &[u32])
        requires { All (NamesBelow (length numbers.now)) self.old.phases }
        ensures commodities { self.new.commodities ≡ self.old.commodities }
        ensures phases { self.new.phases ≡ map (map (renumbered numbers.now)) self.old.phases }
    {
        for entry in self.flat.iter_mut() {
            entry.row = numbers[entry.row as usize];
        }
    }
}
