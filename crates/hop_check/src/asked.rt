//! Which rows a certificate with hop limits is asked for.

ghost use Rattle.std.specs.Prelude.{◌≡◌, ℕ, ◌+◌, ◌<◌, ◌≤◌, ◌||◌, nat_le, nat_lt, false, length, IfOk, MatchOption, slice_index, if◌then◌else◌};
ghost use Rattle.std.specs.Option.{option_map_or, is_none};
ghost use Rattle.hop_paths.specs.Allowed.{AreLimits, is_unlimited};
ghost use Rattle.mcf_limits.specs.declared.TheConstants.{MAX_HOPS};
ghost use Rattle.hop_check.specs.Tables.{AreCounts};

use flow_model::Net;
use std::alloc::{AllocError, Global};

// The rows of potentials of a source behind one more commodity from it.
#[inline(always)]
fn marked(old: u64, limit: Option<u8>) -> u64
    ensures { result ≡ (if is_none limit then 1 else old) }
{
    match limit {
        Some(_) => old,
        None => 1,
    }
}

/// How many rows of potentials each node is to have, in the order of nodes: one where some commodity without a limit starts
/// there, else none. There are as many limits as commodities.
pub fn unlimited_counts(
    alloc: Global,
    net: &Net,
    limits: &[Option<u8>],
) -> Result<Vec<u64>, AllocError>
    requires { length limits.now ≡ length net.now.commodities }
    ensures len { IfOk result (λ v. length v.items ≡ net.now.nodes) }
    ensures value { IfOk result (λ v. (s : ℕ) → s < net.now.nodes
        → slice_index v.items s ≡ (if is_unlimited net.now limits.now s then 1 else 0)) }
{
    let mut wanted = vec![in alloc; 0u64; net.nodes() as usize]?;
    for (k, commodity) in net.commodities().iter().enumerate() {
        let at = commodity.from as usize;
        wanted[at] = marked(wanted[at], limits[k]);
    }
    Ok(wanted)
}

// The layers of a source behind one more commodity from it.
#[inline(always)]
fn raised(old: u8, limit: Option<u8>) -> u8
    requires old { old ≤ MAX_HOPS + 1 }
    requires small { MatchOption limit (Unit {0}) (λ n. n ≤ MAX_HOPS) }
    ensures small { result ≤ MAX_HOPS + 1 }
    ensures each { (i : ℕ) → nat_lt i result ≡ (nat_lt i old || option_map_or (nat_le i) limit false) }
{
    match limit {
        Some(most) => old.max(most + 1),
        None => old,
    }
}

/// How many layers each node is to have, in the order of nodes: one more than the greatest limit of the commodities that
/// start there, and none where none of them has a limit.
pub fn layer_counts(alloc: Global, net: &Net, limits: &[Option<u8>]) -> Result<Vec<u8>, AllocError>
    requires { AreLimits net.now limits.now }
    ensures { IfOk result (λ v. AreCounts net.now limits.now v.items) }
{
    let mut wanted = vec![in alloc; 0u8; net.nodes() as usize]?;
    for (k, commodity) in net.commodities().iter().enumerate() {
        let at = commodity.from as usize;
        wanted[at] = raised(wanted[at], limits[k]);
    }
    Ok(wanted)
}
