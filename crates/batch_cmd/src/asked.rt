//! What is asked of the solves of a batch, and how much work they are.

ghost use Rattle.std.specs.Prelude.{◌≡◌, ◌*◌, ◌<◌, ◌≤◌, ℕ, IfOk, IfErr, OnOk, length};
ghost use Rattle.matrix_batch.specs.Batch.{IsBatchTooMuch, batch_commodities};
ghost use Rattle.matrix_batch.specs.Views.{batch_view};
ghost use Rattle.batch_cmd.specs.Asked.{AreSolvable, IsBatchAsked, batch_options, budget_for};

use matrix_batch::Matrix;
use mcf_limits::{DEFAULT_PHASES, MAX_DEMANDS, MAX_MATRICES, MAX_PHASES, MAX_WORK};
use solver_run::SolveOptions;

/// The gap in millionths, the phase budget for each matrix if one was given, and the step of the lengths.
#[derive(Clone, Copy, Debug, PartialEq, Eq)]
pub struct BatchAsked {
    /// The gap, in millionths.
    pub gap: u64,
    /// The phase budget for each matrix; `None` for as many as the work allows, up to the default.
    pub phases: Option<u32>,
    /// How sharply lengths rise with loads, from 1 to 2^20.
    pub step: u32,
}

// How many commodities the matrix has.
fn count_of(matrix: &Matrix<'_>) -> u64
    ensures value { result ≡ length matrix.now.net.net.commodities }
    ensures some { 1 ≤ result }
    ensures limit { result ≤ MAX_DEMANDS }
{
    matrix.net.net().commodities().len() as u64
}

// All commodities.
fn count_all(batch: &[Matrix<'_>]) -> u64
    requires { length batch.now ≤ MAX_MATRICES }
    ensures value { result ≡ batch_commodities (batch_view batch.now) }
    ensures some { length batch.now ≤ result }
    ensures limit { result ≤ MAX_DEMANDS * length batch.now }
{
    let mut total = 0u64;
    for matrix in batch {
        total += count_of(matrix);
    }
    total
}

// The phase budget for each matrix, where none was given.
fn default_phases(matrices: usize, commodities: u64) -> u32
    requires some { matrices ≤ commodities }
    requires limit { commodities ≤ MAX_DEMANDS * MAX_MATRICES }
    ensures value { result ≡ budget_for matrices commodities }
    ensures least { 1 ≤ result }
    ensures most { result ≤ MAX_PHASES }
{
    if matrices == 0 {
        return DEFAULT_PHASES as u32;
    }
    DEFAULT_PHASES.min(MAX_WORK / commodities) as u32
}

/// The options of the solves of the matrices, each with one worker; or how many commodities of all times phases there would be,
/// where a budget was given and that is too much. Without matrices there is no work.
pub fn options_of(batch: &[Matrix<'_>], asked: &BatchAsked) -> Result<SolveOptions, u64>
    requires few { length batch.now ≤ MAX_MATRICES }
    requires asked { IsBatchAsked asked.now }
    ensures options { IfOk result (λ o. o ≡ batch_options (batch_view batch.now) asked.now) }
    ensures solvable { IfOk result (AreSolvable (batch_view batch.now)) }
    ensures work { IfErr result (IsBatchTooMuch (batch_view batch.now) asked.now.phases) }
    ensures within { OnOk result (¬ ((n : ℕ) × IsBatchTooMuch (batch_view batch.now) asked.now.phases n)) }
{
    let commodities = count_all(batch);
    let phases = match asked.phases {
        Some(phases) => phases,
        None => default_phases(batch.len(), commodities),
    };
    let work = commodities * phases as u64;
    if work > MAX_WORK {
        return Err(work);
    }
    Ok(SolveOptions {
        gap: asked.gap,
        phases,
        workers: 1,
        step: asked.step,
    })
}
