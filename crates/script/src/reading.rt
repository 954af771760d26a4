//! What was read of a script so far.

ghost use Rattle.std.specs.Prelude.{◌≡◌, ◌≤◌, ◌<◌, All, IfOk, OnOk, length};
ghost use Rattle.script.specs.Reading.{after};
ghost use Rattle.script.specs.Steps.{AreSteps};
ghost use Rattle.script.specs.Answer.{IsExpected, IsMeant, sofar_of};

use crate::step::Step;
use crate::word::{Expected, Meaning};
use mcf_limits::MAX_UNITS;
use std::alloc::AllocError;

/// What is expected next, the capacities of the links as they are now, and the steps so far.
#[derive(Drop)]
pub struct Reading {
    /// What has to stand next.
    pub expected: Expected,
    /// The capacity of each link, in units.
    pub caps: Vec<u64>,
    /// The steps so far.
    pub steps: Vec<Step>,
}

/// Goes on by what a word means.
pub fn take(reading: &mut Reading, meaning: Meaning) -> Result<(), AllocError>
    requires meant { IsMeant (length reading.old.caps.items) meaning }
    requires caps { All (λ cap. cap ≤ MAX_UNITS) reading.old.caps.items }
    requires steps { AreSteps (length reading.old.caps.items) reading.old.steps.items }
    ensures value { OnOk result (sofar_of reading.new ≡ after (sofar_of reading.old) meaning) }
    ensures count { OnOk result (length reading.new.caps.items ≡ length reading.old.caps.items) }
    ensures caps { OnOk result (All (λ cap. cap ≤ MAX_UNITS) reading.new.caps.items) }
    ensures steps { OnOk result (AreSteps (length reading.old.caps.items) reading.new.steps.items) }
    ensures expected { OnOk result (IsExpected (length reading.old.caps.items) reading.new.expected) }
{
    match meaning {
        Meaning::Expects(expected) => {
            reading.expected = expected;
        }
        Meaning::Edits(link, cap) => {
            reading.steps.push(Step::Edit { link, cap })?;
            reading.caps[link as usize] = cap;
            reading.expected = Expected::Command;
        }
        Meaning::Shows => {
            reading.steps.push(Step::Show)?;
            reading.expected = Expected::Command;
        }
    }
    Ok(())
}
