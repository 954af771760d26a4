//! What the words ask for.

ghost use Rattle.std.specs.Prelude.{◌≡◌, ◌<◌, ℕ, [], ◌∷◌, ◌++◌, length, string_bytes, slice_get, slice_index_or, OnOk, OnErr};
ghost use Rattle.std.specs.Option.{option_map};
ghost use Rattle.mcf_words.specs.declared.request.WordsEnd.TheVariants.{Memory};

use std::alloc::{AllocError, AllocFailed, Global};
use std::marker::Model;
use unit_scale::NetOptions;

/// What is to be done.
#[derive(Clone, Copy, Debug, PartialEq, Eq)]
pub enum Command {
    /// Solves a network, and writes its certificate.
    Solve,
    /// Judges a certificate or a routing.
    Check,
    /// Evaluates a certificate under edited capacities.
    WhatIf,
    /// Writes a valid certificate again, in form 2.
    Upgrade,
    /// Writes the best certificate that one or two give.
    Tighten,
    /// Solves a network for each matrix of a list.
    Batch,
    /// Evaluates a certificate without each single link.
    Sweep,
    /// Solves a network without each single link.
    SweepSolve,
    /// Judges a certificate with hop limits.
    CheckHops,
    /// Judges a certificate of a total.
    CheckThroughput,
    /// Solves a network within the hop limits of its demands.
    Hops,
    /// Solves a network for the greatest total.
    Throughput,
    /// Writes the canonical text of a network.
    Print,
    /// Writes a network that is drawn from a seed.
    Gen,
    /// Solves such a network, and writes a line on it.
    Trial,
}

/// Texts in order.
#[derive(Drop)]
pub struct Names {
    items: Vec<String>,
}

impl Model for Names {
    ghost use Rattle.std.specs.Prelude.{ℕ, List, map, string_bytes};

    ghost Value = { List (List ℕ) };

    ghost view = { λ n. map string_bytes n.items.items };
}

impl Names {
    /// No names.
    pub fn new(alloc: Global) -> Self
        ensures { result ≡ [] }
    {
        Names {
            items: Vec::new(alloc),
        }
    }

    /// Appends a copy of the text. After an `Err` the names are as before.
    pub fn push(&mut self, alloc: Global, name: &str) -> Result<(), AllocError>
        ensures ok { OnOk result (self.new ≡ self.old ++ name.now ∷ []) }
        ensures err { OnErr result (self.new ≡ self.old) }
    {
        let copy = String::from_str(alloc, name)?;
        self.items.push(copy)?;
        Ok(())
    }

    /// How many names there are.
    pub fn len(&self) -> usize
        ensures { result ≡ length self.now }
    {
        self.items.len()
    }

    /// The name at that place, if there is one.
    pub fn get(&self, i: usize) -> Option<&str>
        ensures { option_map (λ w. w.now) result ≡ slice_get self.now i }
    {
        match self.items.get(i) {
            Some(name) => Some(name.as_str()),
            None => None,
        }
    }

    /// The name at that place.
    pub fn name(&self, i: usize) -> &str
        requires { i < length self.now }
        ensures { result.now ≡ slice_index_or self.now i [] }
    {
        self.items[i].as_str()
    }
}

/// A command with its words.
#[derive(Drop)]
pub struct Request {
    /// The command.
    pub command: Command,
    /// The names of files, in order.
    pub names: Names,
    /// For `gen` and `trial` the seed and the numbers of nodes, links and demands; else four zeros.
    pub numbers: [u64; 4],
    /// How links and modules are read.
    pub net: NetOptions,
    /// In millionths.
    pub gap: u64,
    /// `None` where the words leave the phase budget open.
    pub phases: Option<u32>,
    /// `None` where the words leave the number of workers open.
    pub workers: Option<u16>,
    /// How sharply lengths rise with loads, from 1 to 2^20.
    pub step: u32,
}

/// Why there is no request.
#[derive(Clone, Copy, Debug, PartialEq, Eq)]
pub enum WordsEnd {
    /// The words are not in the grammar.
    Usage,
    /// Memory ran out.
    Memory,
}

impl From<AllocError> for WordsEnd {
    ghost from_gives = { λ _ e. e ≡ Memory };

    fn from(_: AllocError) -> Self {
        WordsEnd::Memory
    }
}

impl<T: Drop> From<AllocFailed<T>> for WordsEnd {
    ghost from_gives = { λ _ e. e ≡ Memory };

    fn from(_: AllocFailed<T>) -> Self {
        WordsEnd::Memory
    }
}
