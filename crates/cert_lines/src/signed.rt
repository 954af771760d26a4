//! The words of cells in form 2: a sign, and the id of the cell's link.

ghost use Rattle.std.specs.Prelude.{◌≡◌, ◌≤◌, length, position};
ghost use Rattle.std.specs.List.{flat_map};
ghost use Rattle.std.specs.Str.{bytes_eq};
ghost use Rattle.mcf_limits.specs.declared.TheConstants.{MAX_LINKS};
ghost use Rattle.sndlib_grammar.specs.Rows.{names_of_links};
ghost use Rattle.unit_scale.specs.Names.{name_of};
ghost use Rattle.cert_lines.specs.Sheet.{sign_mark, signed_words, place_of};
ghost use Rattle.cert_lines.specs.Signs.{sign_marked, marked_cell};

use sndlib_rows::RawNet;
use unit_scale::{CellName, LinkMode, Sign, cell_of, name_of};

const ALONG: u8 = b'+';

const AGAINST: u8 = b'-';

const BOTH: u8 = b'=';

// What the word of a cell that goes that way begins with.
fn mark(sign: Sign) -> &'static [u8]
    ensures { result.now ≡ sign_mark sign }
{
    match sign {
        Sign::Along => b"+",
        Sign::Against => b"-",
        Sign::Both => b"=",
    }
}

// The sign of that mark.
fn sign_marked(mark: u8) -> Option<Sign>
    ensures { result ≡ sign_marked mark }
{
    match mark {
        ALONG => Some(Sign::Along),
        AGAINST => Some(Sign::Against),
        BOTH => Some(Sign::Both),
        _ => None,
    }
}

/// What the word of that cell begins with.
pub fn sign_of_cell(mode: LinkMode, cell: u16) -> &'static [u8]
    ensures { result.now ≡ sign_mark (name_of mode cell).sign }
{
    mark(name_of(mode, cell).sign)
}

// The cell that goes over the link of that id as the mark says.
fn marked_cell(rows: &RawNet<'_>, mode: LinkMode, mark: u8, id: &[u8]) -> Option<u16>
    requires { length rows.now.links ≤ MAX_LINKS }
    ensures { result
        ≡ marked_cell mode mark (position (bytes_eq id.now) (names_of_links rows.now)) }
{
    let sign = match sign_marked(mark) {
        Some(sign) => sign,
        None => return None,
    };
    match rows.link_named(id) {
        Some(link) => cell_of(mode, CellName { link, sign }),
        None => None,
    }
}

/// The cell of that word, and `None` exactly where none has it.
pub fn named_cell(rows: &RawNet<'_>, mode: LinkMode, word: &[u8]) -> Option<u16>
    requires { length rows.now.links ≤ MAX_LINKS }
    ensures { result ≡ place_of (flat_map (signed_words mode) (names_of_links rows.now)) word.now }
{
    match word.split_first() {
        Some((mark, id)) => marked_cell(rows, mode, *mark, id),
        None => None,
    }
}
