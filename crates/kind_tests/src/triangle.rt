//! A network of three nodes, each joined to both others, and certificates for its one demand, which may take one link.

ghost use Rattle.std.specs.Prelude.{◌≡◌, ◌<◌, ◌≤◌, [], All, IfOk};
ghost use Rattle.flow_paths.specs.Certificate.{IsRowOf};
ghost use Rattle.hop_check.specs.Conditions.{IsHopProofOf, IsLayerOf};
ghost use Rattle.kind_tests.specs.Triangle.{triangle};

use flow_model::{Cell, Commodity, Net};
use flow_paths::{Dual, PathStore, Printed, Proof, Routing};
use hop_check::{HopProof, Layers};
use mcf_limits::MAX_LENGTH;
use std::alloc::{AllocError, Global};

/// The path of the demand.
#[derive(Clone, Copy)]
pub enum Walk {
    /// Over one link.
    Direct,
    /// Over two links.
    Around,
}

/// What a certificate has.
#[derive(Clone, Copy)]
pub struct Case {
    /// Its path rows.
    pub walk: Walk,
    /// How many rows the second layer has.
    pub rows: u32,
    /// The number of the demand's end in the second layer.
    pub far: u64,
}

// The length of the link that joins the ends of the demand.
const LONG: u64 = 4503599627370496;

// The length of either other link.
const SHORT: u64 = 13743895347;

/// The network.
pub fn net_of(alloc: Global) -> Result<Net, AllocError>
    ensures { IfOk result (λ net. net ≡ triangle) }
{
    let direct = Cell {
        tail: 0,
        head: 1,
        both: true,
        cap: 2,
    };
    let there = Cell {
        tail: 0,
        head: 2,
        both: true,
        cap: 10,
    };
    let on = Cell {
        tail: 2,
        head: 1,
        both: true,
        cap: 10,
    };
    let commodity = Commodity {
        from: 0,
        to: 1,
        amount: 2,
    };
    let cells = Vec::from_slice(alloc, &[direct, there, on])?;
    let commodities = Vec::from_slice(alloc, &[commodity])?;
    Ok(Net::new(3, cells, commodities))
}

// The path row.
fn paths_of(alloc: Global, walk: Walk) -> Result<PathStore, AllocError>
    ensures { IfOk result (λ paths. All (IsRowOf triangle) paths) }
{
    let mut paths = PathStore::new(alloc);
    match walk {
        Walk::Direct => {
            paths.push(0, &[0], 2)?;
        }
        Walk::Around => {
            paths.push(0, &[1, 2], 2)?;
        }
    }
    Ok(paths)
}

// The lengths.
fn dual_of(alloc: Global) -> Result<Dual, AllocError>
    ensures lengths { IfOk result (λ dual. All (λ r. r.cell < 3) dual.lengths) }
    ensures potentials { IfOk result (λ dual. dual.potentials ≡ []) }
{
    let mut dual = Dual::new(alloc);
    dual.push_length(0, LONG)?;
    dual.push_length(1, SHORT)?;
    dual.push_length(2, SHORT)?;
    Ok(dual)
}

// The layers.
fn layers_of(alloc: Global, rows: u32, far: u64) -> Result<Layers, AllocError>
    requires { far ≤ MAX_LENGTH }
    ensures { IfOk result (λ layers. All (IsLayerOf triangle) layers) }
{
    let mut layers = Layers::new(alloc);
    layers.push(alloc, 0, 0, &[0, MAX_LENGTH, MAX_LENGTH])?;
    for _ in 0..rows {
        layers.push(alloc, 0, 1, &[0, far, SHORT])?;
    }
    Ok(layers)
}

/// The certificate.
pub fn proof_of(alloc: Global, case: &Case) -> Result<HopProof, AllocError>
    requires { case.now.far ≤ MAX_LENGTH }
    ensures { IfOk result (IsHopProofOf triangle) }
{
    let paths = paths_of(alloc, case.walk)?;
    let dual = dual_of(alloc)?;
    let layers = layers_of(alloc, case.rows, case.far)?;
    let proof = Proof {
        closed: true,
        gap: 50000,
        routing: Routing {
            phases: 1,
            scale_cap: 2,
            scale_load: 2,
            paths,
        },
        lower: Printed {
            num: 2,
            den: 2,
            whole: 1,
            micro: 0,
        },
        upper: Printed {
            num: 9007474132647932,
            den: 9007199254740992,
            whole: 1,
            micro: 31,
        },
        dual,
    };
    Ok(HopProof { proof, layers })
}
