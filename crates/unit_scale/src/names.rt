//! The cells of links, and the name of each.

ghost use Rattle.std.specs.Prelude.{◌≡◌, ◌<◌, ◌≤◌, slice_index_or, IfSome};
ghost use Rattle.unit_scale.specs.Modes.{signs};
ghost use Rattle.unit_scale.specs.declared.modes.Sign.TheVariants.{Along as AlongIs};
ghost use Rattle.unit_scale.specs.Names.{per, sign_place, cells_of, name_of, cell_of};

use crate::{LinkMode, Sign};
use mcf_limits::MAX_LINKS;

/// A cell by the number of its link, and by which way it goes over the link.
#[derive(Clone, Copy, Debug, PartialEq, Eq)]
pub struct CellName {
    /// The number of the link, from 0 on.
    pub link: u16,
    /// Which way it goes.
    pub sign: Sign,
}

// How many cells a link has.
fn per(mode: LinkMode) -> u16
    ensures value { result ≡ per mode }
    ensures some { 1 ≤ result }
    ensures few { result ≤ 2 }
{
    match mode {
        LinkMode::Directed | LinkMode::Undirected => 1,
        LinkMode::Bidirected => 2,
    }
}

// The sign at that place among those of a link's cells.
fn sign_at(mode: LinkMode, place: u16) -> Sign
    requires { place < per mode }
    ensures { result ≡ slice_index_or (signs mode) place AlongIs }
{
    match mode {
        LinkMode::Directed => Sign::Along,
        LinkMode::Undirected => Sign::Both,
        LinkMode::Bidirected => {
            if place == 0 {
                Sign::Along
            } else {
                Sign::Against
            }
        }
    }
}

// The place of the sign among those of a link's cells.
fn sign_place(mode: LinkMode, sign: Sign) -> Option<u16>
    ensures value { result ≡ sign_place mode sign }
    ensures few { IfSome result (λ place. place ≤ 1) }
{
    match (mode, sign) {
        (LinkMode::Directed, Sign::Along)
        | (LinkMode::Undirected, Sign::Both)
        | (LinkMode::Bidirected, Sign::Along) => Some(0),
        (LinkMode::Bidirected, Sign::Against) => Some(1),
        _ => None,
    }
}

/// How many cells `links` links have: one each, or two where links are bidirected.
pub fn cells_of(mode: LinkMode, links: u16) -> u16
    requires { links ≤ MAX_LINKS }
    ensures { result ≡ cells_of mode links }
{
    per(mode) * links
}

/// The name of the cell of that number.
pub fn name_of(mode: LinkMode, cell: u16) -> CellName
    ensures { result ≡ name_of mode cell }
{
    let per = per(mode);
    CellName {
        link: cell / per,
        sign: sign_at(mode, cell % per),
    }
}

/// The number of the cell of that name, or `None` where the mode has no cells of its sign.
pub fn cell_of(mode: LinkMode, name: CellName) -> Option<u16>
    requires { name.link < MAX_LINKS }
    ensures { result ≡ cell_of mode name }
{
    let place = sign_place(mode, name.sign)?;
    Some(per(mode) * name.link + place)
}
