//! Whether the rows of a certificate with hop limits are those that are asked for, where they stand, and whether they bound.

ghost use Rattle.std.specs.Prelude.{◌≡◌, ℕ, ◌^◌, ◌<◌, ◌≤◌, ◌↔◌, List, Option, All, length, IsTrue, IfOk};
ghost use Rattle.flow_model.specs.Bound.{weighted_distance};
ghost use Rattle.flow_paths.specs.Certificate.{IsPotentialOf, lengths_in};
ghost use Rattle.hop_paths.specs.Allowed.{AreLimits, has_layer};
ghost use Rattle.hop_check.specs.Layers.{hop_distances, hop_dual};
ghost use Rattle.hop_check.specs.Conditions.{IsLayerOf, IsHopProofOf, RowsAreAsked, RowsBound};
ghost use Rattle.hop_check.specs.Tables.{AreCounts, IsPlaced, ArePlaces, PotentialsAreAsked, LayersAreAsked, LayersBound};

use crate::asked::unlimited_counts;
use crate::distance::weighted;
use crate::hop_proof::HopProof;
use crate::layers::Layers;
use crate::places::{are_asked, layer_places, layer_rows};
use crate::rise::are_next;
use cert_check::{are_wanted, row_counts, rows_are_potentials};
use flow_model::Net;
use flow_paths::{Dual, row_places};
use mcf_limits::MAX_LENGTH;
use std::alloc::{AllocError, Global};

// Whether each source of a commodity without a limit has one row of potentials, and no other node has any.
fn potentials_are_asked(
    alloc: Global,
    net: &Net,
    limits: &[Option<u8>],
    dual: &Dual,
) -> Result<bool, AllocError>
    requires limits { length limits.now ≡ length net.now.commodities }
    requires rows { All (IsPotentialOf net.now) dual.now.potentials }
    ensures { IfOk result (λ yes. IsTrue yes ↔ PotentialsAreAsked net.now limits.now dual.now.potentials) }
{
    let counts = row_counts(alloc, net.nodes() as usize, dual)?;
    let wanted = unlimited_counts(alloc, net, limits)?;
    Ok(are_wanted(&counts, &wanted))
}

// Whether each layer whose index is below the source's count has one row, and no other has any.
fn layers_are_asked(
    alloc: Global,
    net: &Net,
    layers: &Layers,
    counts: &[u8],
) -> Result<bool, AllocError>
    requires rows { All (IsLayerOf net.now) layers.now }
    requires counts { length counts.now ≡ net.now.nodes }
    ensures { IfOk result (λ yes. (limits : List (Option ℕ)) → AreCounts net.now limits counts.now
        → IsTrue yes ↔ LayersAreAsked net.now limits layers.now) }
{
    let rows = layer_rows(alloc, net.nodes(), layers)?;
    Ok(are_asked(&rows, counts))
}

/// Whether the rows of potentials are of the sources of commodities without a limit, and the layers of a source go from 0 to
/// the greatest limit of its commodities, each row once, and no other: condition C6. `counts` has how many layers each node
/// is asked for.
pub fn rows_are_asked(
    alloc: Global,
    net: &Net,
    limits: &[Option<u8>],
    h: &HopProof,
    counts: &[u8],
) -> Result<bool, AllocError>
    requires limits { AreLimits net.now limits.now }
    requires proof { IsHopProofOf net.now h.now }
    requires counts { AreCounts net.now limits.now counts.now }
    ensures { IfOk result (λ yes. IsTrue yes ↔ RowsAreAsked net.now limits.now h.now) }
{
    let potentials = potentials_are_asked(alloc, net, limits, &h.proof.dual)?;
    let layers = layers_are_asked(alloc, net, &h.layers, counts)?;
    Ok(potentials && layers)
}

// Whether each layer whose index is below the source's count is the next of the one before.
fn layers_bound(
    net: &Net,
    lengths: &[u64],
    layers: &Layers,
    places: &[usize],
    counts: &[u8],
) -> bool
    requires len { length lengths.now ≡ length net.now.cells }
    requires limit { All (λ n. n ≤ MAX_LENGTH) lengths.now }
    requires counts { length counts.now ≡ net.now.nodes }
    requires placed { ArePlaces net.now.nodes counts.now layers.now places.now }
    ensures { (limits : List (Option ℕ)) → AreCounts net.now limits counts.now
        → IsTrue result ↔ LayersBound net.now limits lengths.now layers.now }
{
    let _nodes = net.nodes();
    are_next(net, lengths, layers, places, counts)
}

/// Whether the rows of potentials are potentials, and the layers are layers up to each commodity's limit: condition C7.
/// `lengths` are the certificate's, and the tables tell how many layers each node is asked for, and where they stand.
pub fn rows_bound(net: &Net, h: &HopProof, lengths: &[u64], places: &[usize], counts: &[u8]) -> bool
    requires proof { IsHopProofOf net.now h.now }
    requires lengths { lengths.now ≡ lengths_in net.now h.now.proof.dual }
    requires len { length lengths.now ≡ length net.now.cells }
    requires limit { All (λ n. n ≤ MAX_LENGTH) lengths.now }
    requires counts { length counts.now ≡ net.now.nodes }
    requires placed { ArePlaces net.now.nodes counts.now h.now.layers places.now }
    ensures { (limits : List (Option ℕ)) → AreCounts net.now limits counts.now
        → IsTrue result ↔ RowsBound net.now limits h.now }
{
    rows_are_potentials(net, lengths, &h.proof.dual)
        && layers_bound(net, lengths, &h.layers, places, counts)
}

/// Amount times distance, over all commodities, in units: at most 2^108. The table tells where the layers stand.
pub fn bottom(
    alloc: Global,
    net: &Net,
    limits: &[Option<u8>],
    dual: &Dual,
    layers: &Layers,
    places: &[usize],
) -> Result<u128, AllocError>
    requires limits { AreLimits net.now limits.now }
    requires rows { All (IsPotentialOf net.now) dual.now.potentials }
    requires asked { PotentialsAreAsked net.now limits.now dual.now.potentials }
    requires placed { (v i : ℕ) → v < net.now.nodes → IsTrue (has_layer net.now limits.now v i)
        → IsPlaced net.now.nodes layers.now places.now v i }
    ensures value { IfOk result (λ n. n ≡ weighted_distance net.now.commodities
        (hop_distances net.now limits.now (hop_dual dual.now layers.now))) }
    ensures limit { IfOk result (λ n. n ≤ 2 ^ 108) }
{
    let rows = row_places(alloc, net.nodes() as usize, dual)?;
    Ok(weighted(net, limits, dual, layers, &rows, places))
}

/// Amount times distance within the limits, over all commodities, in units: at most 2^108. Potentials have a row for each
/// source of a commodity without a limit, and the layers of a source go up to the greatest limit of its commodities.
pub fn hop_weighted_distance(
    alloc: Global,
    net: &Net,
    limits: &[Option<u8>],
    dual: &Dual,
    layers: &Layers,
) -> Result<u128, AllocError>
    requires limits { AreLimits net.now limits.now }
    requires rows { All (IsPotentialOf net.now) dual.now.potentials }
    requires layers { All (IsLayerOf net.now) layers.now }
    requires asked { PotentialsAreAsked net.now limits.now dual.now.potentials }
    requires asked_layers { LayersAreAsked net.now limits.now layers.now }
    ensures value { IfOk result (λ n. n ≡ weighted_distance net.now.commodities
        (hop_distances net.now limits.now (hop_dual dual.now layers.now))) }
    ensures limit { IfOk result (λ n. n ≤ 2 ^ 108) }
{
    let places = layer_places(alloc, net.nodes(), layers)?;
    bottom(alloc, net, limits, dual, layers, &places)
}
