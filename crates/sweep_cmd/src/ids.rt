//! The ids of links, as the lines of a sweep begin with them.

ghost use Rattle.std.specs.Prelude.{◌≡◌, IfOk, map};
ghost use Rattle.sndlib_grammar.specs.Rows.{names_of_links};

use sndlib_rows::RawNet;
use std::alloc::{AllocError, Global};

/// The ids of the links, in their order.
pub fn link_ids<'a>(alloc: Global, rows: &RawNet<'a>) -> Result<Vec<&'a [u8]>, AllocError>
    ensures { IfOk result (λ ids. map (λ id. id.now) ids.items ≡ names_of_links rows.now) }
{
    let count = rows.links();
    let mut ids = Vec::with_capacity(alloc, count as usize)?;
    for i in 0..count {
        ids.push(rows.link(i).id)?;
    }
    Ok(ids)
}
