//! The cells of links.

ghost use Rattle.std.specs.Prelude.{◌≡◌, ◌≤◌, ◌++◌, [], ◌∷◌, length, OnOk};
ghost use Rattle.std.specs.List.{flat_map};
ghost use Rattle.sndlib_grammar.specs.declared.refusal.NetKind.TheVariants.{TooLarge as TooLargeIs};
ghost use Rattle.unit_scale.specs.Scaling.{first_line, is_large_link, cells_of_link, link_cells, cell_going};
ghost use Rattle.unit_scale.specs.declared.modes.LinkMode.TheVariants.{Bidirected as BidirectedIs};
ghost use Rattle.unit_scale.specs.Stages.{Stage, AreLinkSizes};

use crate::links::LinkSize;
use crate::refusal::{ScaleEnd, refused};
use crate::sizes::{unit_of, units_of_size};
use crate::{LinkMode, NetOptions, Sign};
use flow_model::Cell;
use mcf_limits::MAX_DECIMALS;
use sndlib_rows::{LinkRow, NetKind, RawNet};
use std::alloc::{AllocError, Global};

// The cell of a link that goes that way.
fn cell_going(row: &LinkRow<'_>, cap: u64, sign: Sign) -> Cell
    ensures { result ≡ cell_going row.now.source row.now.target cap sign }
{
    match sign {
        Sign::Along => Cell {
            tail: row.source,
            head: row.target,
            both: false,
            cap,
        },
        Sign::Against => Cell {
            tail: row.target,
            head: row.source,
            both: false,
            cap,
        },
        Sign::Both => Cell {
            tail: row.source,
            head: row.target,
            both: true,
            cap,
        },
    }
}

// Puts the one cell of a link behind the others.
fn push_cell(
    cells: &mut Vec<Cell>,
    row: &LinkRow<'_>,
    cap: u64,
    sign: Sign,
) -> Result<(), AllocError>
    ensures { OnOk result (cells.new.items ≡ cells.old.items ++ cell_going row.now.source
        row.now.target cap sign ∷ []) }
{
    cells.push(cell_going(row, cap, sign))?;
    Ok(())
}

// Puts a cell for each way behind the others.
fn push_both_ways(cells: &mut Vec<Cell>, row: &LinkRow<'_>, cap: u64) -> Result<(), AllocError>
    ensures { OnOk result (cells.new.items ≡ cells.old.items ++ link_cells BidirectedIs
        row.now.source row.now.target cap) }
{
    cells.push(cell_going(row, cap, Sign::Along))?;
    cells.push(cell_going(row, cap, Sign::Against))?;
    Ok(())
}

// Puts the cells of a link behind the others.
fn push_cells(
    cells: &mut Vec<Cell>,
    mode: LinkMode,
    row: &LinkRow<'_>,
    cap: u64,
) -> Result<(), AllocError>
    ensures { OnOk result (cells.new.items ≡ cells.old.items ++ link_cells mode row.now.source row.now.target cap) }
{
    match mode {
        LinkMode::Directed => push_cell(cells, row, cap, Sign::Along),
        LinkMode::Undirected => push_cell(cells, row, cap, Sign::Both),
        LinkMode::Bidirected => push_both_ways(cells, row, cap),
    }
}

/// The cells, if no link is too large.
pub fn cells_of(
    alloc: Global,
    raw: &RawNet<'_>,
    options: NetOptions,
    sizes: &[LinkSize],
    decimals: u8,
) -> Result<Vec<Cell>, ScaleEnd>
    requires decimals { decimals ≤ MAX_DECIMALS }
    requires sizes { AreLinkSizes options.modules raw.now.links sizes.now }
    ensures { Stage TooLargeIs (first_line (is_large_link options.modules decimals) (λ l. l.line) raw.now.links)
        (λ v. v.items ≡ flat_map (cells_of_link options decimals) raw.now.links) result }
{
    let unit = unit_of(decimals);
    let mut cells = Vec::new(alloc);
    for i in 0..raw.links() {
        let size = sizes[i as usize];
        let row = raw.link(i);
        let cap = match units_of_size(size.over, size.millionths, unit) {
            Some(cap) => cap,
            None => return Err(refused(NetKind::TooLarge, row.line)),
        };
        match push_cells(&mut cells, options.links, &row, cap) {
            Ok(()) => {}
            Err(_) => return Err(ScaleEnd::Memory),
        }
    }
    Ok(cells)
}
