//! The matrices so far, and what was read of the matrix that comes next.

ghost use Rattle.std.specs.Prelude.{◌≡◌, Some, OnOk};
ghost use Rattle.sndlib_grammar.specs.Faults.{or_else};
ghost use Rattle.matrix_batch.specs.Reading.{demand_of};
ghost use Rattle.matrix_batch.specs.Stored.{at_start, add_demand, add_matrix, put_word, put_right};
ghost use Rattle.matrix_batch.specs.ReadViews.{word_view, draft_view, demand_view, sofar_view};

use crate::kept::{DemandWords, MatrixWords, Word};
use crate::mode::Mode;
use mcf_limits::{MAX_DEMANDS, MAX_MATRICES};
use std::alloc::{AllocError, Global};
use std::mem;

/// The first words of a demand.
#[derive(Clone, Copy, Debug)]
pub struct Draft<'a> {
    /// Its id.
    pub id: Word<'a>,
    /// The name of its source.
    pub source: Word<'a>,
    /// The name of its target.
    pub target: Word<'a>,
    /// Its routing unit.
    pub unit: Word<'a>,
    /// Its demand value.
    pub value: Word<'a>,
}

/// The matrices so far, and of the next one its name and its demands, with the first words of another
/// demand. Of both no more are kept than there may be: past that only the line of the first one too
/// many.
#[derive(Debug, Drop)]
pub struct Sofar<'a> {
    /// The name of the next matrix.
    pub name: Word<'a>,
    /// The first words of its next demand.
    pub draft: Draft<'a>,
    /// The demands that it has so far.
    pub demands: Vec<DemandWords<'a>>,
    /// The matrices before it.
    pub matrices: Vec<MatrixWords<'a>>,
    /// How many demands are kept in all.
    pub count: u32,
    /// The line of the first demand too many.
    pub extra_demand: Option<u32>,
    /// The line of the first matrix too many.
    pub extra_matrix: Option<u32>,
}

// The line so far, or else this one.
fn or_this(sofar: Option<u32>, line: u32) -> Option<u32>
    ensures { result ≡ or_else sofar (Some line) }
{
    match sofar {
        Some(first) => Some(first),
        None => Some(line),
    }
}

impl<'a> Sofar<'a> {
    /// Nothing was read.
    pub fn new(alloc: Global) -> Self
        ensures { sofar_view result ≡ at_start }
    {
        let none = Word { text: &[], line: 0 };
        Sofar {
            name: none,
            draft: Draft {
                id: none,
                source: none,
                target: none,
                unit: none,
                value: none,
            },
            demands: Vec::new(alloc),
            matrices: Vec::new(alloc),
            count: 0,
            extra_demand: None,
            extra_matrix: None,
        }
    }

    // The demand whose last word this is.
    fn demand(&self, longest: Word<'a>) -> DemandWords<'a>
        ensures { demand_view result
            ≡ demand_of (draft_view self.now.draft) (word_view longest.entry) }
    {
        DemandWords {
            id: self.draft.id,
            source: self.draft.source,
            target: self.draft.target,
            unit: self.draft.unit,
            value: self.draft.value,
            longest,
        }
    }

    fn push_demand(&mut self, demand: DemandWords<'a>) -> Result<(), AllocError>
        ensures { OnOk result (sofar_view self.new
            ≡ add_demand (sofar_view self.old) (demand_view demand.entry)) }
    {
        if self.count < MAX_DEMANDS {
            self.demands.push(demand)?;
            self.count += 1;
        } else {
            self.extra_demand = or_this(self.extra_demand, demand.id.line);
        }
        Ok(())
    }

    fn push_matrix(&mut self, alloc: Global) -> Result<(), AllocError>
        ensures { OnOk result (sofar_view self.new ≡ add_matrix (sofar_view self.old)) }
    {
        let demands = mem::replace(&mut self.demands, Vec::new(alloc));
        let name = self.name;
        if self.matrices.len() < MAX_MATRICES as usize {
            self.matrices.push(MatrixWords { name, demands })?;
        } else {
            self.extra_matrix = or_this(self.extra_matrix, name.line);
        }
        Ok(())
    }

    /// At a right parenthesis.
    pub fn at_right(&mut self, alloc: Global, mode: Mode) -> Result<(), AllocError>
        ensures { OnOk result (sofar_view self.new ≡ put_right mode (sofar_view self.old)) }
    {
        match mode {
            Mode::Inside => self.push_matrix(alloc),
            _ => Ok(()),
        }
    }

    /// At a word.
    pub fn at_word(&mut self, mode: Mode, word: Word<'a>) -> Result<(), AllocError>
        ensures { OnOk result (sofar_view self.new
            ≡ put_word mode (word_view word.entry) (sofar_view self.old)) }
    {
        match mode {
            Mode::Between => self.name = word,
            Mode::Inside => self.draft.id = word,
            Mode::Source => self.draft.source = word,
            Mode::Target => self.draft.target = word,
            Mode::Unit => self.draft.unit = word,
            Mode::Value => self.draft.value = word,
            Mode::Longest => {
                let demand = self.demand(word);
                return self.push_demand(demand);
            }
            _ => {}
        }
        Ok(())
    }
}
