//! Length rows.

ghost use Rattle.std.specs.Prelude.{◌≡◌, ◌≤◌, IfOk};
ghost use Rattle.text_lines.specs.Lines.{words_of};
ghost use Rattle.cert_lines.specs.Forms.{seen};
ghost use Rattle.cert_lines.specs.Rows.{length_row};

use crate::Names;
use crate::forms::two_behind;
use crate::numbers::number_within;
use crate::refusal::CertKind;
use mcf_limits::MAX_LENGTH;

const LENGTH: &[u8] = b"length";

/// The cell and the length of a length row.
#[tactic(auto, unfolding(crate::specs::Rows::length_row))]
pub fn length_row(names: &Names<'_, '_>, line: &[u8]) -> Result<(u16, u64), CertKind>
    ensures exact { seen (λ p. record { cell = p.0; value = p.1 }) result
        ≡ length_row names.now (words_of line.now) }
    ensures within { IfOk result (λ p. p.1 ≤ MAX_LENGTH) }
{
    let (word, number) = match two_behind(LENGTH, line) {
        Some(parts) => parts,
        None => return Err(CertKind::Syntax),
    };
    let cell = match names.cell_named(word) {
        Some(cell) => cell,
        None => return Err(CertKind::UnknownName),
    };
    let value = match number_within(number, MAX_LENGTH as u128) {
        Ok(value) => value as u64,
        Err(kind) => return Err(kind),
    };
    Ok((cell, value))
}
