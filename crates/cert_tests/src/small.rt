//! A network of one link and one demand, and certificates for it.

ghost use Rattle.std.specs.Prelude.{◌≡◌, ◌<◌, All, IfOk, IsTrue, OnOk};
ghost use Rattle.flow_paths.specs.Certificate.{IsProofOf, IsRowOf, IsPotentialOf};
ghost use Rattle.cert_tests.specs.Small.{network_of, IsCase};

use flow_model::{Cell, Commodity, Net};
use flow_paths::{Dual, PathStore, Printed, Proof, Routing};
use mcf_limits::{MAX_GAP, MAX_LENGTH, MAX_PHASES, MAX_UNITS};
use std::alloc::{AllocError, Global};

/// Which path rows a certificate has.
#[derive(Clone, Copy)]
pub enum Paths {
    /// None.
    Missing,
    /// One row that goes over the link once.
    Once,
    /// One row that goes over the link twice.
    Twice,
    /// A row over the link, and a row without weight that goes over it twice.
    TwiceLater,
    /// One row that goes over the link, back, and over it again.
    ThereAndBack,
}

/// Which rows of potentials a certificate has.
#[derive(Clone, Copy)]
pub enum Rows {
    /// None.
    Missing,
    /// One row, of the demand's source.
    Source,
    /// That row twice.
    SourceTwice,
    /// A row of the source, and one of the target.
    BothEnds,
}

/// The numbers of a certificate of one link from A to B, with one demand.
#[derive(Clone, Copy)]
pub struct Case {
    /// The capacity of the link, in units.
    pub cap: u64,
    /// Whether the link goes both ways.
    pub both: bool,
    /// The amount of the demand, in units.
    pub amount: u64,
    /// How many phases the certificate says.
    pub phases: u32,
    /// The first number of its scale.
    pub scale_cap: u64,
    /// The second number of its scale.
    pub scale_load: u64,
    /// Its path rows.
    pub paths: Paths,
    /// The weight of each path row, in units.
    pub weight: u64,
    /// How many rows of lengths it has, each of the link.
    pub length_rows: u32,
    /// The length in each of them.
    pub size: u64,
    /// Its rows of potentials.
    pub rows: Rows,
    /// The potential of A in each of them.
    pub near: u64,
    /// The potential of B in each of them.
    pub far: u64,
    /// Its lower fraction.
    pub lower: Printed,
    /// Its upper fraction.
    pub upper: Printed,
    /// Its gap, in millionths.
    pub gap: u64,
    /// Whether it says that it is closed.
    pub closed: bool,
}

/// Whether the numbers are within the limits of a network and of a certificate.
pub fn is_case(case: &Case) -> bool
    ensures { IsTrue result → IsCase case.now }
{
    case.cap <= MAX_UNITS
        && case.amount >= 1
        && case.amount <= MAX_UNITS
        && case.weight <= MAX_LENGTH
        && case.phases <= MAX_PHASES
        && case.scale_cap <= MAX_UNITS
        && case.scale_load <= MAX_LENGTH
        && case.size <= MAX_LENGTH
        && case.near <= MAX_LENGTH
        && case.far <= MAX_LENGTH
        && case.gap <= MAX_GAP
        && case.lower.micro < 1000000
        && case.upper.micro < 1000000
}

/// The network.
pub fn net_of(alloc: Global, case: &Case) -> Result<Net, AllocError>
    requires { IsCase case.now }
    ensures { IfOk result (λ net. net ≡ network_of case.now) }
{
    let cell = Cell {
        tail: 0,
        head: 1,
        both: case.both,
        cap: case.cap,
    };
    let commodity = Commodity {
        from: 0,
        to: 1,
        amount: case.amount,
    };
    let cells = Vec::from_slice(alloc, &[cell])?;
    let commodities = Vec::from_slice(alloc, &[commodity])?;
    Ok(Net::new(2, cells, commodities))
}

// The path rows.
fn paths_of(alloc: Global, case: &Case) -> Result<PathStore, AllocError>
    requires { IsCase case.now }
    ensures { IfOk result (λ paths. All (IsRowOf (network_of case.now)) paths) }
{
    let mut paths = PathStore::new(alloc);
    match case.paths {
        Paths::Missing => {}
        Paths::Once => {
            paths.push(0, &[0], case.weight)?;
        }
        Paths::Twice => {
            paths.push(0, &[0, 0], case.weight)?;
        }
        Paths::TwiceLater => {
            paths.push(0, &[0], case.weight)?;
            paths.push(0, &[0, 0], 0)?;
        }
        Paths::ThereAndBack => {
            paths.push(0, &[0, 0, 0], case.weight)?;
        }
    }
    Ok(paths)
}

// The rows of potentials.
fn push_rows(alloc: Global, dual: &mut Dual, case: &Case) -> Result<(), AllocError>
    requires case { IsCase case.now }
    requires lengths { All (λ r. r.cell < 1) dual.old.lengths }
    requires potentials { All (IsPotentialOf (network_of case.now)) dual.old.potentials }
    ensures lengths { OnOk result (All (λ r. r.cell < 1) dual.new.lengths) }
    ensures potentials { OnOk result (All (IsPotentialOf (network_of case.now)) dual.new.potentials) }
{
    match case.rows {
        Rows::Missing => {}
        Rows::Source => {
            dual.push_row(alloc, 0, &[case.near, case.far])?;
        }
        Rows::SourceTwice => {
            dual.push_row(alloc, 0, &[case.near, case.far])?;
            dual.push_row(alloc, 0, &[case.near, case.far])?;
        }
        Rows::BothEnds => {
            dual.push_row(alloc, 0, &[case.near, case.far])?;
            dual.push_row(alloc, 1, &[case.far, case.near])?;
        }
    }
    Ok(())
}

// The lengths and the potentials.
fn dual_of(alloc: Global, case: &Case) -> Result<Dual, AllocError>
    requires { IsCase case.now }
    ensures lengths { IfOk result (λ dual. All (λ r. r.cell < 1) dual.lengths) }
    ensures potentials { IfOk result (λ dual. All (IsPotentialOf (network_of case.now)) dual.potentials) }
{
    let mut dual = Dual::new(alloc);
    if case.length_rows > 0 {
        dual.push_length(0, case.size)?;
    }
    if case.length_rows > 1 {
        dual.push_length(0, case.size)?;
    }
    push_rows(alloc, &mut dual, case)?;
    Ok(dual)
}

/// The certificate.
pub fn proof_of(alloc: Global, case: &Case) -> Result<Proof, AllocError>
    requires { IsCase case.now }
    ensures { IfOk result (IsProofOf (network_of case.now)) }
{
    let paths = paths_of(alloc, case)?;
    let dual = dual_of(alloc, case)?;
    Ok(Proof {
        closed: case.closed,
        gap: case.gap,
        routing: Routing {
            phases: case.phases,
            scale_cap: case.scale_cap,
            scale_load: case.scale_load,
            paths,
        },
        lower: case.lower,
        upper: case.upper,
        dual,
    })
}
