//! The path, length and potential rows, read.

ghost use Rattle.std.specs.Prelude.{◌≡◌, IfOk, codes};
ghost use Rattle.cert_lines.specs.Rows.{path_row};
ghost use Rattle.cert_text.specs.Views.{place_view, HasRoom};
ghost use Rattle.cert_text.specs.Reading.{Gives, rows_at};
ghost use Rattle.cert_text.specs.Papers.{dual_at};
ghost use Rattle.kind_texts.specs.Rows.{flows_at};

use cert_lines::{CertEnd, Names};
use cert_text::{Place, dual_of, paths_of};
use flow_paths::{Dual, PathStore};
use std::alloc::Global;

// The path rows, the length rows and the potential rows, and the place behind them.
#[tactic(auto, unfolding(crate::specs::Rows::flows_at))]
pub fn flows_of<'a>(
    alloc: Global,
    names: &Names<'_, '_>,
    place: Place<'a>,
) -> Result<((PathStore, Dual), Place<'a>), CertEnd>
    requires { HasRoom place }
    ensures exact { Gives (λ x. ((x.0.0, x.0.1), place_view x.1)) result
        (flows_at names.now (place_view place.entry)) }
    ensures room { IfOk result (λ x. HasRoom x.1) }
{
    let (paths, place) = match paths_of(alloc, names, place) {
        Ok(read) => read,
        Err(end) => return Err(end),
    };
    match dual_of(alloc, names, place) {
        Ok((dual, place)) => Ok(((paths, dual), place)),
        Err(end) => Err(end),
    }
}
