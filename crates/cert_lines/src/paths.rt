//! Path rows.

ghost use Rattle.std.specs.Prelude.{◌≡◌, ◌≤◌, IfOk, length, take};
ghost use Rattle.std.specs.Option.{option_map};
ghost use Rattle.text_lines.specs.Lines.{words_of};
ghost use Rattle.cert_lines.specs.Forms.{seen, words_in};
ghost use Rattle.cert_lines.specs.Rows.{cells_from, path_row};

use crate::Names;
use crate::forms::row_behind;
use crate::numbers::number_within;
use crate::refusal::CertKind;
use mcf_limits::{MAX_LENGTH, MAX_PATH_CELLS};
use text_lines::split_word;

const PATH: &[u8] = b"path";

// The cells of the words, put into `cells`, and how many they are.
fn cells_of(
    names: &Names<'_, '_>,
    words: Option<&[u8]>,
    cells: &mut [u16],
) -> Result<usize, CertKind>
    requires { length cells.old ≡ MAX_PATH_CELLS }
    ensures exact { seen (λ n. take n cells.new) result
        ≡ cells_from names.now 0 (words_in (option_map (λ w. w.now) words.entry)) }
    ensures within { IfOk result (λ n. n ≤ MAX_PATH_CELLS) }
{
    let mut count = 0usize;
    let mut left = words;
    'ids: loop {
        let line = match left {
            Some(line) => line,
            None => return Ok(count),
        };
        let (id, rest) = split_word(line);
        if count >= MAX_PATH_CELLS {
            return Err(CertKind::TooLarge);
        }
        match names.cell_named(id) {
            Some(cell) => cells[count] = cell,
            None => return Err(CertKind::UnknownName),
        }
        count += 1;
        left = rest;
    }
}

/// The commodity, the weight and the number of cells of a path row, its cells at the front of `cells`.
#[tactic(auto, unfolding(crate::specs::Rows::path_row))]
pub fn path_row(
    names: &Names<'_, '_>,
    line: &[u8],
    cells: &mut [u16],
) -> Result<(u32, u64, usize), CertKind>
    requires { length cells.old ≡ MAX_PATH_CELLS }
    ensures exact { seen (λ p. record { commodity = p.0; walk = take p.2 cells.new; weight = p.1 }) result
        ≡ path_row names.now (words_of line.now) }
    ensures weight { IfOk result (λ p. p.1 ≤ MAX_LENGTH) }
    ensures within { IfOk result (λ p. p.2 ≤ MAX_PATH_CELLS) }
{
    let (id, weight, words) = match row_behind(PATH, line) {
        Some(parts) => parts,
        None => return Err(CertKind::Syntax),
    };
    let commodity = match names.commodity_named(id) {
        Some(commodity) => commodity,
        None => return Err(CertKind::UnknownName),
    };
    let weight = match number_within(weight, MAX_LENGTH as u128) {
        Ok(value) => value as u64,
        Err(kind) => return Err(kind),
    };
    match cells_of(names, words, cells) {
        Ok(count) => Ok((commodity, weight, count)),
        Err(kind) => Err(kind),
    }
}
