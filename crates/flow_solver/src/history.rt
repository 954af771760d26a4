//! The paths and entries of a run.

ghost use Rattle.std.specs.Prelude.{◌≡◌};

use crate::entries::Entries;
use crate::noted::{NotedRows, Sought, noted_row};
use crate::places::Place;
use flow_model::Net;
use flow_paths::{PathStore, new_numbers, order_of, stored};
use mcf_limits::MAX_PHASES;
use solver_run::Entry;
use std::alloc::{AllocError, Global};
use std::marker::Model;

/// Path rows with weights, and for each phase an entry for each commodity, which names a row. Contracts see how
/// many commodities there are, the rows, and a list of phases.
#[derive(Drop)]
pub struct PathHistory {
    paths: PathStore,
    entries: Entries,
}

/// The rows in ascending order of commodity and then cells, and the entries, which name them by their new numbers.
#[derive(Drop)]
pub struct OrderedHistory {
    /// The rows of paths.
    pub paths: PathStore,
    /// Who routed what in each phase.
    pub entries: Entries,
}

impl Model for PathHistory {
    ghost use Rattle.std.specs.Prelude.{All, length};
    ghost use Rattle.flow_solver.specs.Phases.{NamesBelow};
    ghost use Rattle.flow_solver.specs.Rows.{HistoryView};

    ghost Value = { HistoryView };

    ghost view = { λ h. record { commodities = h.entries.commodities; rows = h.paths; history = h.entries.phases } };

    ghost invariant = { λ h. All (NamesBelow (length h.paths)) h.entries.phases };
}

impl PathHistory {
    ghost use Rattle.std.specs.Prelude.{◌≡◌, ℕ, ◌<◌, ◌≤◌, ◌++◌, ◌∷◌, List, [], OnOk, OnErr, IfOk, length, map};
    ghost use Rattle.flow_model.specs.Network.{Network};
    ghost use Rattle.flow_paths.specs.PathRows.{Adds};
    ghost use Rattle.solver_run.specs.History.{routed_in, AreRowsOf};
    ghost use Rattle.flow_solver.specs.Rows.{phases_kept, AreRowsFor};
    ghost use Rattle.flow_solver.specs.Adding.{CanBeAdded, CanBeNoted, CanTakePhase, IsNoted, KeepsRows, AreBegun, ArePlaces, AreRoutedAs};
    ghost use Rattle.phase_engine.specs.declared.hand.Hand.{Hand};

    /// No phase and no row, for the commodities of the network.
    pub fn new(alloc: Global, net: &Net) -> Self
        ensures value { result ≡ record { commodities = length net.now.commodities; rows = []; history = [] } }
        ensures rows { AreRowsFor net.now [] [] }
    {
        PathHistory {
            paths: PathStore::new(alloc),
            entries: Entries::new(alloc, net.commodities().len() as u32),
        }
    }

    /// How many phases are noted.
    pub fn phases(&self) -> u32
        ensures { result ≡ length self.now.history }
    {
        self.entries.phases()
    }

    // Adds a path to the rows, no two of which are alike: its row grows, or, where there is none, one is appended. It is looked for first
    // among the rows that are noted. It is a function of its own, since few commodities come here: so the loop over all has registers
    // for what it needs.
    #[inline(never)]
    fn add_other(
        &mut self,
        noted: &mut NotedRows,
        k: u32,
        path: &[u16],
        amount: u64,
    ) -> Result<u32, AllocError>
        requires { CanBeAdded self.old.rows k path.now amount }
        ensures commodities { self.new.commodities ≡ self.old.commodities }
        ensures history { self.new.history ≡ self.old.history }
        ensures ok { IfOk result (Adds self.old.rows self.new.rows k path.now amount) }
        ensures err { OnErr result (self.new.rows ≡ self.old.rows) }
    {
        if let Some(row) = noted_row(&self.paths, noted.row_of(path), k, path) {
            self.paths.grow(row, amount);
            return Ok(row);
        }
        let row = self.paths.add(k, path, amount)?;
        noted.note(path, row);
        Ok(row)
    }

    // As `add_other`, and the row is looked for first where the commodity was found last, which mostly is the one.
    #[inline(always)]
    fn add_path(
        &mut self,
        last: &mut u32,
        noted: &mut NotedRows,
        k: u32,
        path: &[u16],
        amount: u64,
    ) -> Result<u32, AllocError>
        requires { CanBeAdded self.old.rows k path.now amount }
        ensures commodities { self.new.commodities ≡ self.old.commodities }
        ensures history { self.new.history ≡ self.old.history }
        ensures ok { IfOk result (Adds self.old.rows self.new.rows k path.now amount) }
        ensures err { OnErr result (self.new.rows ≡ self.old.rows) }
    {
        if let Some(row) = noted_row(&self.paths, *last, k, path) {
            self.paths.grow(row, amount);
            return Ok(row);
        }
        let row = self.add_other(noted, k, path, amount)?;
        *last = row;
        Ok(row)
    }

    /// Adds the paths of the next commodities to the rows, and their entries behind those of the first ones, until there are `until`
    /// entries. `Err`: out of memory; the phases are as before, but weights may have grown, so nothing more can be added.
    pub(crate) fn name_rows(
        &mut self,
        net: &Net,
        places: &[Place],
        last: &mut [u32],
        noted: &mut [NotedRows],
        entries: &mut Vec<Entry>,
        until: usize,
    ) -> Result<(), AllocError>
        requires can { CanTakePhase net.now self.old entries.old.items }
        requires count { length places.now ≡ length net.now.commodities }
        requires last { length last.old ≡ length net.now.commodities }
        requires noted { length noted.old ≡ length net.now.commodities }
        requires until { until ≤ length net.now.commodities }
        requires more { length entries.old.items ≤ until }
        ensures commodities { self.new.commodities ≡ self.old.commodities }
        ensures history { self.new.history ≡ self.old.history }
        ensures keeps { KeepsRows self.old.rows self.new.rows }
        ensures count { OnOk result (length entries.new.items ≡ until) }
        ensures begun { OnOk result (AreBegun net.now self.old.history entries.new.items self.new.rows) }
        ensures named { OnOk result ((hands : List Hand) → ArePlaces net.now hands places.now
            → AreRoutedAs hands self.old.rows entries.old.items
            → AreRoutedAs hands self.new.rows entries.new.items) }
    {
        let commodities = net.commodities();
        for k in entries.len()..until {
            let row = self.add_path(
                &mut last[k],
                &mut noted[k],
                k as u32,
                places[k].path,
                commodities[k].amount,
            )?;
            entries.push(Entry {
                worker: places[k].hand,
                row,
            })?;
        }
        Ok(())
    }

    /// Appends the phase whose entries these are. `Err`: out of memory: the phases are as before.
    pub(crate) fn append_phase(&mut self, _net: &Net, entries: &[Entry]) -> Result<(), AllocError>
        requires commodities { self.old.commodities ≡ length _net.now.commodities }
        requires phases { length self.old.history < MAX_PHASES }
        requires begun { AreBegun _net.now self.old.history entries.now self.old.rows }
        requires count { length entries.now ≡ length _net.now.commodities }
        ensures ok { OnOk result (self.new ≡ record {
          commodities = self.old.commodities;
          rows = self.old.rows;
          history = self.old.history ++ entries.now ∷ [];
        }) }
        ensures err { OnErr result (self.new ≡ self.old) }
    {
        self.entries.push(entries)?;
        Ok(())
    }

    /// Appends the phase that hands have routed, with each commodity's place: its path is found among the rows, which grow by the
    /// commodity's amount, or appended. `Err`: out of memory: the phases are as before, but weights may have grown,
    /// so nothing more can be added.
    pub(crate) fn note_phase(
        &mut self,
        alloc: Global,
        net: &Net,
        places: &[Place],
        sought: &mut Sought,
    ) -> Result<(), AllocError>
        requires { CanBeNoted net.now self.old places.now }
        ensures commodities { self.new.commodities ≡ self.old.commodities }
        ensures noted { OnOk result (IsNoted net.now places.now self.old self.new) }
        ensures err { OnErr result (phases_kept self.new ≡ phases_kept self.old) }
    {
        sought.make_room(alloc, places.len())?;
        let Sought { last, noted } = sought;
        let mut entries = Vec::with_capacity(alloc, places.len())?;
        self.name_rows(net, places, last, noted, &mut entries, places.len())?;
        self.append_phase(net, &entries)
    }

    /// The same phases, with the rows in ascending order of commodity and then cells.
    pub fn ordered(self, alloc: Global) -> Result<OrderedHistory, AllocError>
        ensures commodities { IfOk result (λ r. r.entries.commodities ≡ self.commodities) }
        ensures phases { IfOk result (λ r. map (routed_in r.paths) r.entries.phases ≡ phases_kept self) }
        ensures rows { IfOk result (λ r. (net : Network) → AreRowsFor net self.history self.rows
            → AreRowsOf net r.entries.phases r.paths) }
    {
        let PathHistory { paths, entries } = self;
        let mut entries = entries;
        let order = order_of(alloc, &paths)?;
        let numbers = new_numbers(alloc, &order)?;
        let paths = stored(alloc, &paths, &order)?;
        entries.renumber(&numbers);
        Ok(OrderedHistory { paths, entries })
    }
}
