//! A script, as its steps.

ghost use Rattle.std.specs.Prelude.{◌≡◌};

use std::marker::Model;
use unit_scale::LinkMode;

/// One step: a link gets this capacity, in units, or the bounds are shown. In bidirected mode the capacity is that of each
/// of the link's cells.
#[derive(Clone, Copy, Debug, PartialEq, Eq)]
pub enum Step {
    /// The link of this number gets this capacity.
    Edit { link: u16, cap: u64 },
    /// The bounds are shown.
    Show,
}

/// A script that was read. It is seen as how its links are read, and its steps.
#[derive(Drop)]
pub struct Script {
    pub(crate) links: LinkMode,
    pub(crate) steps: Vec<Step>,
}

impl Model for Script {
    ghost use Rattle.script.specs.Steps.{ScriptView};

    ghost Value = { ScriptView };

    ghost view = { λ s. record { mode = s.links; steps = s.steps.items } };
}

impl Script {
    /// How the links of its steps are read.
    pub fn links(&self) -> LinkMode
        ensures { result ≡ self.now.mode }
    {
        self.links
    }

    /// The steps, in order.
    pub fn steps(&self) -> &[Step]
        ensures { result.now ≡ self.now.steps }
    {
        &self.steps
    }
}
