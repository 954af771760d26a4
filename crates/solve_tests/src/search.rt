//! A least path under the lengths of loads, by the search.

ghost use Rattle.std.specs.Prelude.{◌≡◌, ◌<◌, ◌≤◌, All, IfOk, IfSome, IsTrue, length};
ghost use Rattle.flow_model.specs.Lengths.{IsSetting};
ghost use Rattle.solve_tests.specs.Routed.{IsLeastPath};

use dijkstra_paths::{Graph, Scratch};
use fixed_exp::{LengthTable, Powers};
use flow_model::{Net, Setting};
use mcf_limits::MAX_LENGTH;
use std::alloc::{AllocError, Global};

fn copy_of(alloc: Global, path: &[u16]) -> Result<Vec<u16>, AllocError>
    ensures { IfOk result (λ v. v.items ≡ path.now) }
{
    let mut copy = Vec::new(alloc);
    copy.extend_from_slice(path)?;
    Ok(copy)
}

/// A path of the commodity, if it has one.
pub fn least_path(
    alloc: Global,
    net: &Net,
    setting: &Setting,
    loads: &[u64],
    k: u32,
) -> Result<Option<Vec<u16>>, AllocError>
    requires setting { IsSetting setting.now }
    requires loads { length loads.now ≡ length net.now.cells }
    requires small { All (λ x. x ≤ MAX_LENGTH) loads.now }
    requires k { k < length net.now.commodities }
    ensures { IfOk result (λ found. IfSome found (λ path. IsLeastPath net.now setting.now loads.now k path.items)) }
{
    let powers = Powers::new();
    let mut table = LengthTable::new(alloc, &powers, net, setting)?;
    table.update(&powers, net, loads);
    let graph = Graph::new(alloc, net)?;
    let mut scratch = Scratch::new(alloc, net.nodes(), net.cells().len() as u16)?;
    let commodity = net.commodities()[k as usize];
    scratch.search(&graph, table.lengths(), commodity.from);
    match scratch.path_to(commodity.to) {
        None => Ok(None),
        Some(path) => Ok(Some(copy_of(alloc, path)?)),
    }
}

/// Whether the search gives this path.
pub fn is_least_path(
    alloc: Global,
    net: &Net,
    setting: &Setting,
    loads: &[u64],
    k: u32,
    path: &[u16],
) -> Result<bool, AllocError>
    requires setting { IsSetting setting.now }
    requires loads { length loads.now ≡ length net.now.cells }
    requires small { All (λ x. x ≤ MAX_LENGTH) loads.now }
    requires k { k < length net.now.commodities }
    ensures { IfOk result (λ b. IsTrue b → IsLeastPath net.now setting.now loads.now k path.now) }
{
    match least_path(alloc, net, setting, loads, k)? {
        None => Ok(false),
        Some(found) => Ok(found.as_slice() == path),
    }
}
