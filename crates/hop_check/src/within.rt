//! Whether paths keep their limits of hops.

ghost use Rattle.std.specs.Prelude.{◌<◌, ◌↔◌, All, length, IsTrue};
ghost use Rattle.hop_paths.specs.Allowed.{IsWithin, AreWithin};

use flow_paths::PathStore;

// Whether the path has at most as many cells as the limit, if there is one.
fn is_within(limit: Option<u8>, path: &[u16]) -> bool
    ensures { IsTrue result ↔ IsWithin limit path.now }
{
    match limit {
        Some(most) => path.len() <= most as usize,
        None => true,
    }
}

/// Whether every row's path has at most as many cells as its commodity's limit. Each row's commodity has a limit, or
/// `None`.
pub fn are_within(limits: &[Option<u8>], paths: &PathStore) -> bool
    requires { All (λ r. r.commodity < length limits.now) paths.now }
    ensures { IsTrue result ↔ AreWithin limits.now paths.now }
{
    for row in 0..paths.rows() {
        if !is_within(limits[paths.commodity(row) as usize], paths.path(row)) {
            return false;
        }
    }
    true
}
