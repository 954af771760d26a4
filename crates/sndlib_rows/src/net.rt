//! A network as its rows.

ghost use Rattle.std.specs.Prelude.{◌≡◌, IfOk};
ghost use Rattle.sndlib_rows.specs.Names.{names_of};
ghost use Rattle.sndlib_rows.specs.Net.{AreRawParts};
ghost use Rattle.sndlib_rows.specs.Parts.{rows_with};

use crate::part::NetPart;
use crate::row::DemandRow;
use indexmap::IndexSet;
use std::alloc::{AllocError, Global};
use std::marker::Model;
use std::sync::Arc;

/// The rows of a network, whose words are slices of texts, and the numbers of their names. Rows of nodes and links may be shared with networks of other demands. It is seen as three lists of rows, the number of skipped sections and the line of the end.
#[derive(Drop)]
pub struct RawNet<'a> {
    pub(crate) part: Arc<NetPart<'a>>,
    pub(crate) demands: Vec<DemandRow<'a>>,
    pub(crate) demand_names: IndexSet<&'a [u8]>,
}

impl<'a> Model for RawNet<'a> {
    ghost use Rattle.sndlib_grammar.specs.Rows.{NetRows};

    ghost Value = { NetRows };

    ghost use Rattle.sndlib_rows.specs.Net.{rows_in, IsRawNet};

    ghost view = { rows_in };

    ghost invariant = { IsRawNet };
}

impl<'a> RawNet<'a> {
    /// The network of nodes and links with these demands, and the names of the demands in order.
    pub fn new(
        alloc: Global,
        part: NetPart<'a>,
        demands: Vec<DemandRow<'a>>,
        demand_names: IndexSet<&'a [u8]>,
    ) -> Result<RawNet<'a>, AllocError>
        requires { AreRawParts part demands.items (names_of demand_names) }
        ensures { IfOk result (λ rows. rows ≡ rows_with part.entry demands.entry.items) }
    {
        Ok(RawNet {
            part: Arc::new(alloc, part)?,
            demands,
            demand_names,
        })
    }
}
