//! The verdict on a whole certificate.

ghost use Rattle.std.specs.Prelude.{◌≡◌, ◌*◌, ◌+◌, ◌≤◌, ◌<◌, ◌^◌, ◌↔◌, IsTrue, IfOk, MatchOption, All, length};
ghost use Rattle.gap_fraction.specs.Fraction.{Fraction};
ghost use Rattle.gap_fraction.specs.Decimals.{millionths_down, millionths_up};
ghost use Rattle.flow_paths.specs.Certificate.{IsProofOf, IsValid, IsPotentialOf, CellsHaveLengths, SourcesHaveRows, RowsArePotentials, IsPrinted, FractionsArePrinted, lengths_in, distances_in, lower_of, upper_of};
ghost use Rattle.flow_model.specs.Bound.{IsPotential, weighted_distance};
ghost use Rattle.flow_paths.specs.DualRows.{potential_at};
ghost use Rattle.cert_check.specs.Verdict.{IsVerdictOn, CertifiesIfValid};

use crate::potentials::is_potential;
use crate::tables::{are_ones, are_wanted, cell_lengths, length_counts, row_counts, wanted_counts};
use crate::verdict::{Fault, Verdict, lower, route_fault};
use flow_model::Net;
use flow_paths::{Dual, Printed, Proof, row_places, volume, weighted_distance};
use gap_fraction::{Frac, Shown};
use mcf_limits::MAX_LENGTH;
use std::alloc::{AllocError, Global};

/// Whether every cell of the network has exactly one length row: condition C5. Each row's cell is one of the network's.
pub fn cells_have_lengths(alloc: Global, net: &Net, dual: &Dual) -> Result<bool, AllocError>
    requires { All (λ r. r.cell < length net.now.cells) dual.now.lengths }
    ensures { IfOk result (λ yes. IsTrue yes ↔ CellsHaveLengths net.now dual.now) }
{
    let counts = length_counts(alloc, net.cells().len(), dual)?;
    Ok(are_ones(&counts))
}

/// The length of every cell, in the order of cells: a number of at most 2^62 each. Each cell has exactly one row.
pub fn lengths(alloc: Global, net: &Net, dual: &Dual) -> Result<Vec<u64>, AllocError>
    requires named { All (λ r. r.cell < length net.now.cells) dual.now.lengths }
    requires once { CellsHaveLengths net.now dual.now }
    ensures value { IfOk result (λ v. v.items ≡ lengths_in net.now dual.now) }
    ensures len { IfOk result (λ v. length v.items ≡ length net.now.cells) }
    ensures limit { IfOk result (λ v. All (λ n. n ≤ MAX_LENGTH) v.items) }
{
    let table = cell_lengths(alloc, net.cells().len(), dual)?;
    Ok(table)
}

// Whether the rows of potentials are of the commodities' sources, each once.
fn sources_have_rows(alloc: Global, net: &Net, dual: &Dual) -> Result<bool, AllocError>
    requires { All (IsPotentialOf net.now) dual.now.potentials }
    ensures { IfOk result (λ yes. IsTrue yes ↔ SourcesHaveRows net.now dual.now) }
{
    let nodes = net.nodes() as usize;
    let counts = row_counts(alloc, nodes, dual)?;
    let wanted = wanted_counts(alloc, nodes, net.commodities())?;
    Ok(are_wanted(&counts, &wanted))
}

/// Whether no traversal of a cell raises the potential of the row of this number by more than the cell's length.
/// Lengths and potentials are numbers of at most 2^62.
pub fn row_is_potential(net: &Net, lengths: &[u64], dual: &Dual, row: usize) -> bool
    requires row { row < length dual.now.potentials }
    requires rows { All (IsPotentialOf net.now) dual.now.potentials }
    requires lengths { lengths.now ≡ lengths_in net.now dual.now }
    requires len { length lengths.now ≡ length net.now.cells }
    requires limit { All (λ n. n ≤ MAX_LENGTH) lengths.now }
    ensures { IsTrue result ↔ IsPotential net.now.cells (lengths_in net.now dual.now)
        (potential_at dual.now.potentials row).values }
{
    is_potential(net.cells(), lengths, dual.row(row))
}

/// Whether in no row a traversal of a cell raises the potential by more than the cell's length: condition C7. Lengths and
/// potentials are numbers of at most 2^62.
pub fn rows_are_potentials(net: &Net, lengths: &[u64], dual: &Dual) -> bool
    requires rows { All (IsPotentialOf net.now) dual.now.potentials }
    requires lengths { lengths.now ≡ lengths_in net.now dual.now }
    requires len { length lengths.now ≡ length net.now.cells }
    requires limit { All (λ n. n ≤ MAX_LENGTH) lengths.now }
    ensures { IsTrue result ↔ RowsArePotentials net.now dual.now }
{
    for i in 0..dual.rows() {
        if !row_is_potential(net, lengths, dual, i) {
            return false;
        }
    }
    true
}

// The sum of amount times distance.
fn distance(alloc: Global, net: &Net, dual: &Dual) -> Result<u128, AllocError>
    requires rows { All (IsPotentialOf net.now) dual.now.potentials }
    requires sources { SourcesHaveRows net.now dual.now }
    ensures value { IfOk result (λ n. n ≡ weighted_distance net.now.commodities (distances_in net.now dual.now)) }
    ensures limit { IfOk result (λ n. n ≤ 2 ^ 108) }
{
    let places = row_places(alloc, net.nodes() as usize, dual)?;
    Ok(weighted_distance(net.commodities(), &places, dual))
}

/// The bound that a valid certificate proves: the volume of its lengths over the sum of amount times distance.
pub fn upper(alloc: Global, net: &Net, proof: &Proof) -> Result<Frac, AllocError>
    requires named { IsProofOf net.now proof.now }
    requires valid { IsValid net.now proof.now }
    ensures { IfOk result (λ f. f ≡ upper_of net.now proof.now.dual) }
{
    let lengths = lengths(alloc, net, &proof.dual)?;
    let distance = distance(alloc, net, &proof.dual)?;
    Ok(Frac::new(volume(net.cells(), &lengths), distance))
}

/// Whether the fraction is printed with its own parts, not reduced, and with these decimals: a whole part, and millionths
/// below 1,000,000.
pub fn is_printed(printed: Printed, fraction: &Frac, shown: Shown) -> bool
    requires printed { printed.micro < 1000000 }
    requires shown { shown.micro < 1000000 }
    ensures { IsTrue result ↔ IsPrinted printed fraction.now (shown.whole * 1000000 + shown.micro) }
{
    printed.num == fraction.num()
        && printed.den == fraction.den()
        && printed.whole == shown.whole
        && printed.micro == shown.micro
}

// Whether both fractions are printed as they are.
fn are_printed(proof: &Proof, lower: &Frac, upper: &Frac) -> bool
    requires lower_micro { proof.now.lower.micro < 1000000 }
    requires upper_micro { proof.now.upper.micro < 1000000 }
    ensures { IsTrue result ↔ (IsPrinted proof.now.lower lower.now (millionths_down lower.now)
        × IsPrinted proof.now.upper upper.now (millionths_up upper.now)) }
{
    is_printed(proof.lower, lower, lower.digits_down())
        && is_printed(proof.upper, upper, upper.digits_up())
}

/// The verdict on a certificate: valid with its fractions, or the first condition that fails.
pub fn check(alloc: Global, net: &Net, proof: &Proof) -> Result<Verdict, AllocError>
    requires { IsProofOf net.now proof.now }
    ensures verdict { IfOk result (IsVerdictOn net.now proof.now) }
    ensures certifies { IfOk result (CertifiesIfValid net.now proof.now) }
{
    if let Some(fault) = route_fault(alloc, net, &proof.routing)? {
        return Ok(Verdict::Invalid(fault));
    }
    if !cells_have_lengths(alloc, net, &proof.dual)? {
        return Ok(Verdict::Invalid(Fault::C5));
    }
    let lengths = lengths(alloc, net, &proof.dual)?;
    if !sources_have_rows(alloc, net, &proof.dual)? {
        return Ok(Verdict::Invalid(Fault::C6));
    }
    if !rows_are_potentials(net, &lengths, &proof.dual) {
        return Ok(Verdict::Invalid(Fault::C7));
    }
    let distance = distance(alloc, net, &proof.dual)?;
    if distance == 0 {
        return Ok(Verdict::Invalid(Fault::C8));
    }
    let lower = lower(&proof.routing);
    let upper = Frac::new(volume(net.cells(), &lengths), distance);
    if !are_printed(proof, &lower, &upper) {
        return Ok(Verdict::Invalid(Fault::C9));
    }
    if proof.closed != Frac::within(&lower, &upper, proof.gap) {
        return Ok(Verdict::Invalid(Fault::C10));
    }
    Ok(Verdict::Valid {
        lower,
        upper,
        closed: proof.closed,
    })
}
