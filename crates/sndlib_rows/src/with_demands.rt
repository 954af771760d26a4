//! The same network with other demands.

ghost use Rattle.std.specs.Prelude.{◌≡◌, map, IfOk};
ghost use Rattle.sndlib_grammar.specs.Rows.{AreNetRows};
ghost use Rattle.sndlib_rows.specs.RowViews.{demand_row_view};

use crate::names::names_of_demands;
use crate::net::RawNet;
use crate::refusal::ReadNetEnd;
use crate::row::DemandRow;
use std::alloc::{AllocError, Global};
use std::sync::Arc;

impl<'a> RawNet<'a> {
    /// The rows of this network with these demands in place of its own. Skipped sections and the end stay, and the rows of nodes and links are shared, not copied.
    pub fn with_demands(
        &self,
        alloc: Global,
        demands: Vec<DemandRow<'a>>,
    ) -> Result<RawNet<'a>, AllocError>
        requires { AreNetRows (record self.now { demands = map demand_row_view demands.items }) }
        ensures { IfOk result (λ rows. rows ≡ record self.now { demands = map demand_row_view demands.entry.items }) }
    {
        let demand_names = match names_of_demands(alloc, &demands) {
            Ok(names) => names,
            Err(ReadNetEnd::Memory) => return Err(AllocError),
            Err(ReadNetEnd::Refused(_)) => unreachable!(),
        };
        Ok(RawNet {
            part: Arc::try_clone(&self.part)?,
            demands,
            demand_names,
        })
    }
}
