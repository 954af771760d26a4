//! A certificate whose network's capacities are edited.

ghost use Rattle.std.specs.Prelude.{◌≡◌, ◌≢◌, ◌+◌, ◌*◌, ◌-◌, ◌<◌, ◌≤◌, ◌^◌, ℕ, All, IfOk, length, map, slice_index, slice_set};
ghost use Rattle.flow_model.specs.Network.{IsNetwork};
ghost use Rattle.flow_model.specs.Bound.{volume};
ghost use Rattle.flow_paths.specs.Certificate.{IsProofOf, IsValid, lengths_in};
ghost use Rattle.flow_paths.specs.Evaluation.{edited, loads_of, with_caps};
ghost use Rattle.whatif.specs.Ratios.{IsRatio, ratios};

use crate::bounds::Bounds;
use crate::ratio::{MAX_LOAD, Ratio, ratio_of};
use crate::tree::Tree;
use cert_check::{cell_lengths, path_loads};
use flow_model::{Cell, Net};
use flow_paths::Proof;
use gap_fraction::Frac;
use mcf_limits::{MAX_CELLS, MAX_LINKS, MAX_UNITS};
use std::alloc::{AllocError, Global};
use std::marker::Model;
use std::snapshot::Snapshot;
use std::sync::Arc;
use unit_scale::{LinkMode, cells_of};

// What a plan is of, which clauses alone read. It has no bytes.
#[derive(Drop)]
struct Source {
    net: Snapshot<Net>,
    proof: Snapshot<Proof>,
}

/// A valid certificate under capacities that are edited. It is seen as the network, the certificate and the capacities as they
/// are now. Threads may share it.
#[derive(Drop)]
pub struct Plan {
    // Copies of the plan share it.
    source: Arc<Source>,
    phases: u32,
    caps: Vec<u64>,
    loads: Vec<u128>,
    lengths: Vec<u64>,
    tree: Tree,
    // Capacity times length, over all cells.
    sum: u128,
    // Amount times distance, over all commodities.
    distance: u128,
}

impl Model for Plan {
    ghost use Rattle.std.specs.Prelude.{◌≡◌};
    ghost use Rattle.std.specs.Arc.{arc_value};
    ghost use Rattle.whatif.specs.Planned.{Planned, IsKept};

    ghost Value = { Planned };

    ghost view = { λ p. record {
      net = (arc_value p.source).net.value;
      proof = (arc_value p.source).proof.value;
      caps = p.caps.items;
    } };

    ghost invariant = { λ p. (p.phases ≡ (arc_value p.source).proof.value.routing.phases)
        × IsKept (record {
          net = (arc_value p.source).net.value;
          proof = (arc_value p.source).proof.value;
          caps = p.caps.items;
        })
        p.loads.items p.lengths.items p.tree p.sum p.distance };
}

// The capacities of the cells.
fn capacities(alloc: Global, cells: &[Cell]) -> Result<Vec<u64>, AllocError>
    ensures { IfOk result (λ caps. caps.items ≡ map (λ c. c.cap) cells.now) }
{
    cells.iter().map(|c| c.cap).collect(alloc)
}

// The ratio of each cell.
fn ratios_of(alloc: Global, cells: &[Cell], loads: &[u128]) -> Result<Vec<Ratio>, AllocError>
    requires few { length cells.now ≤ MAX_CELLS }
    requires count { length loads.now ≡ length cells.now }
    requires caps { All (λ c. c.cap ≤ MAX_UNITS) cells.now }
    requires small { All (λ n. n ≤ MAX_LOAD) loads.now }
    ensures value { IfOk result (λ v. v.items ≡ ratios 0 cells.now loads.now) }
    ensures ratios { IfOk result (λ v. All IsRatio v.items) }
{
    let mut list = Vec::with_capacity(alloc, cells.len())?;
    for (c, cell) in cells.iter().enumerate() {
        list.push(ratio_of(cell.cap, loads[c], c as u16))?;
    }
    Ok(list)
}

impl Plan {
    ghost use Rattle.unit_scale.specs.Names.{cells_of};
    ghost use Rattle.unit_scale.specs.Closed.{with_link};
    ghost use Rattle.whatif.specs.Planned.{AreBounds, IsPlanned, evaluation_of, shown_of, with_cap};

    /// The plan of a valid certificate, with the capacities of its network.
    pub fn new(alloc: Global, net: &Net, proof: &Proof) -> Result<Plan, AllocError>
        requires proof { IsProofOf net.now proof.now }
        requires valid { IsValid net.now proof.now }
        ensures { IfOk result (λ p. p ≡ record
            { net = net.now; proof = proof.now; caps = map (λ c. c.cap) net.now.cells }) }
    {
        let _rows = proof.dual.rows();
        let cells = net.cells();
        let caps = capacities(alloc, cells)?;
        let loads = path_loads(alloc, cells.len(), &proof.routing.paths)?;
        let lengths = cell_lengths(alloc, cells.len(), &proof.dual)?;
        let tree = Tree::new(alloc, &ratios_of(alloc, cells, &loads)?)?;
        let source = Source {
            net: Snapshot::of(net),
            proof: Snapshot::of(proof),
        };
        Ok(Plan {
            source: Arc::new(alloc, source)?,
            phases: proof.routing.phases,
            caps,
            loads,
            lengths,
            tree,
            sum: proof.upper.num,
            distance: proof.upper.den,
        })
    }

    /// A plan of its own that is seen as the same: an edit of one leaves the other as it is. Its time and memory go by the
    /// number of cells, and not by the certificate.
    pub fn copy(&self, alloc: Global) -> Result<Plan, AllocError>
        ensures { IfOk result (λ p. p ≡ self.now) }
    {
        Ok(Plan {
            source: Arc::try_clone(&self.source)?,
            phases: self.phases,
            caps: Vec::from_slice(alloc, &self.caps)?,
            loads: Vec::from_slice(alloc, &self.loads)?,
            lengths: Vec::from_slice(alloc, &self.lengths)?,
            tree: self.tree.copy(alloc)?,
            sum: self.sum,
            distance: self.distance,
        })
    }

    /// The cell gets the capacity. It takes no memory, and its time goes by the logarithm of the number of cells.
    pub fn set(&mut self, cell: u16, cap: u64)
        requires cell { cell < length self.old.caps }
        requires cap { cap ≤ MAX_UNITS }
        ensures { self.new ≡ with_cap self.old cell cap }
    {
        let i = cell as usize;
        let length = self.lengths[i] as u128;
        let without = self.sum - self.caps[i] as u128 * length;
        self.sum = without + cap as u128 * length;
        self.caps[i] = cap;
        self.tree.set(i, ratio_of(cap, self.loads[i], cell));
    }

    /// Each cell of the link gets the capacity, in the mode in which the cells are those of links. It takes no memory.
    pub fn set_link(&mut self, mode: LinkMode, link: u16, cap: u64)
        requires link { link < MAX_LINKS }
        requires cells { cells_of mode (link + 1) ≤ length self.old.caps }
        requires cap { cap ≤ MAX_UNITS }
        ensures { self.new ≡ record self.old { caps = with_link mode self.old.caps link cap } }
    {
        for cell in cells_of(mode, link)..cells_of(mode, link + 1) {
            self.set(cell, cap);
        }
    }

    /// The capacity of the cell as it is now.
    pub fn cap(&self, cell: u16) -> u64
        requires { cell < length self.now.caps }
        ensures value { result ≡ slice_index self.now.caps cell }
        ensures limit { result ≤ MAX_UNITS }
    {
        self.caps[cell as usize]
    }

    // The lower fraction.
    fn lower(&self) -> Frac
        ensures { result ≡ (shown_of self.now).lower }
    {
        if self.phases == 0 {
            return Frac::new(0, 1);
        }
        let top = self.tree.top();
        Frac::new(self.phases as u128 * top.cap as u128, top.load)
    }

    // The upper fraction.
    fn upper(&self) -> Frac
        ensures value { result ≡ (shown_of self.now).upper }
        ensures planned { IsPlanned self.now }
    {
        Frac::new(self.sum, self.distance)
    }

    /// Both fractions of the certificate's rows and lengths under the capacities as they are now: the lower one is that of a
    /// feasible routing of the network with these capacities, and the upper one bounds all of them. It takes no memory, and its time does not go by the network.
    pub fn shown(&self) -> Bounds
        ensures value { evaluation_of result ≡ shown_of self.now }
        ensures sound { AreBounds (edited self.now.net self.now.caps) self.now.proof (shown_of self.now) }
    {
        Bounds {
            lower: self.lower(),
            upper: self.upper(),
        }
    }
}
