//! What passes know. It exists in proofs alone.

ghost use Rattle.std.specs.Prelude.{drop};

use flow_core::{Words, Worker};
use flow_model::{Net, Setting};
use std::collections::LinkedList;
use std::marker::Model;
use std::snapshot::Snapshot;

/// What the table is told once. Contracts see it as the terms.
#[derive(Drop)]
pub struct Origin {
    pub(crate) net: Snapshot<Net>,
    pub(crate) setting: Setting,
    pub(crate) words: Snapshot<Vec<u64>>,
    pub(crate) workers: u16,
}

impl Model for Origin {
    ghost use Rattle.std.specs.Prelude.{drop};
    ghost use Rattle.flow_core.specs.Core.{Terms};

    ghost Value = { Terms };

    ghost view = { λ o. record {
      net = o.net.value;
      setting = o.setting;
      base = drop 1 o.words.value.items;
      workers = o.workers;
    } };
}

/// A worker's number and what it did. No value of it is made.
pub struct Hand {
    /// The number of the worker, from 0 on.
    pub number: u16,
    /// What it did.
    pub work: Worker,
}

/// What a pass knows: the workers in it, and how many splits it has left and has made. No value of it is made.
pub struct View {
    /// What the table was told at the start.
    pub terms: Origin,
    /// How many splits the pass has left.
    pub left: u16,
    /// How many it has made.
    pub made: u16,
    /// The workers in it.
    pub hands: LinkedList<Hand>,
}

/// What a pass knows, and the words as they were right after its last step. No value of it is made.
pub struct Known {
    /// What the pass knows.
    pub view: View,
    /// The words as they were.
    pub seen: Words,
}
