//! The rows so far, and what was read of the row that comes next.

ghost use Rattle.std.specs.Prelude.{◌≡◌, ◌+◌, ◌<◌, ◌^◌, [], ◌∷◌, ◌++◌, find, None, OnOk};
ghost use Rattle.std.specs.Option.{option_map};
ghost use Rattle.sndlib_grammar.specs.Faults.{or_else, line_of, is_bad as is_bad_lem};
ghost use Rattle.sndlib_grammar.specs.Reading.{at_start, demand_of};
ghost use Rattle.sndlib_read.specs.Stored.{partial, add_node, add_link, add_demand, add_module, link_from, put_left, put_right, put_word};
ghost use Rattle.std.specs.Prelude.{◌≤◌};
ghost use Rattle.sndlib_read.specs.Views.{sofar_view, draft_view, demand_view, kept_view};
ghost use Rattle.sndlib_rows.specs.Views.{link_view, word_view, slices_view};

use crate::kept::{DemandWords, Kept};
use mcf_limits::{MAX_DEMANDS, MAX_LINKS, MAX_NODES};
use sndlib_grammar::{Mode, is_number};
use sndlib_rows::{LinkWords, NodeWords, Word};
use std::alloc::{AllocError, Global};
use std::mem;

/// The first words of a row, and the capacity of a module whose cost comes next.
#[derive(Clone, Copy, Debug)]
pub struct Draft<'a> {
    /// The id.
    pub id: Word<'a>,
    /// The name of the source.
    pub source: Word<'a>,
    /// The name of the target.
    pub target: Word<'a>,
    /// The pre-installed capacity of a link, or the routing unit of a demand.
    pub first: Word<'a>,
    /// The cost of that capacity, or the demand value.
    pub second: Word<'a>,
    /// The routing cost of a link.
    pub third: Word<'a>,
    /// The setup cost of a link.
    pub fourth: Word<'a>,
    /// The capacity of a module.
    pub capacity: Word<'a>,
}

/// The rows so far; of the next row its first words, the words of its place, its modules, and the line of the first capacity among these that is no number.
#[derive(Debug, Drop)]
pub struct Sofar<'a> {
    /// The first words of the next row.
    pub draft: Draft<'a>,
    /// The words of its place, where it is a node.
    pub words: Vec<&'a [u8]>,
    /// The words of its modules, where it is a link.
    pub modules: Vec<&'a [u8]>,
    /// The line of the first capacity among these that is no number.
    pub bad: Option<u32>,
    /// The rows so far.
    pub rows: Kept<'a>,
}

fn push_node<'a>(
    rows: &mut Kept<'a>,
    id: Word<'a>,
    place: Option<Vec<&'a [u8]>>,
) -> Result<(), AllocError>
    ensures added { OnOk result (kept_view rows.new
        ≡ add_node (kept_view rows.old) (record
        { id = word_view id.entry; place = option_map slices_view place.entry })) }
    ensures skipped { rows.new.skipped ≡ rows.old.skipped }
{
    if rows.nodes.len() < MAX_NODES as usize + 1 {
        rows.nodes.push(NodeWords { id, place })?;
    }
    Ok(())
}

fn push_link<'a>(rows: &mut Kept<'a>, link: LinkWords<'a>) -> Result<(), AllocError>
    ensures added { OnOk result (kept_view rows.new ≡ add_link (kept_view rows.old) (link_view link.entry)) }
    ensures skipped { rows.new.skipped ≡ rows.old.skipped }
{
    if rows.links.len() < MAX_LINKS as usize + 1 {
        rows.links.push(link)?;
    }
    Ok(())
}

fn push_demand<'a>(rows: &mut Kept<'a>, demand: DemandWords<'a>) -> Result<(), AllocError>
    ensures added { OnOk result (kept_view rows.new ≡ add_demand (kept_view rows.old) (demand_view demand.entry)) }
    ensures skipped { rows.new.skipped ≡ rows.old.skipped }
{
    if rows.demands.len() < MAX_DEMANDS as usize + 1 {
        rows.demands.push(demand)?;
    }
    Ok(())
}

// The line of the word, if it is no number.
fn bad_line(word: &Word<'_>) -> Option<u32>
    ensures { result ≡ line_of (find is_bad_lem (word_view word.now ∷ [])) }
{
    if is_number(word.text) {
        None
    } else {
        Some(word.line)
    }
}

// The line so far, or else that of the word, if it is no number.
fn first_bad(sofar: Option<u32>, word: &Word<'_>) -> Option<u32>
    ensures { result ≡ or_else sofar (line_of (find is_bad_lem (word_view word.now ∷ []))) }
{
    match sofar {
        Some(line) => Some(line),
        None => bad_line(word),
    }
}

impl<'a> Sofar<'a> {
    /// Nothing was read.
    pub fn new(alloc: Global) -> Self
        ensures { sofar_view result ≡ partial at_start }
    {
        let none = Word { text: &[], line: 0 };
        Sofar {
            draft: Draft {
                id: none,
                source: none,
                target: none,
                first: none,
                second: none,
                third: none,
                fourth: none,
                capacity: none,
            },
            words: Vec::new(alloc),
            modules: Vec::new(alloc),
            bad: None,
            rows: Kept {
                nodes: Vec::new(alloc),
                links: Vec::new(alloc),
                demands: Vec::new(alloc),
                skipped: 0,
            },
        }
    }

    // The link whose words were read.
    fn take_link(&mut self, alloc: Global) -> LinkWords<'a>
        ensures link { link_view result ≡ link_from (draft_view self.old.draft)
            (slices_view self.old.modules) self.old.bad }
        ensures left { sofar_view self.new ≡ record (sofar_view self.old) { modules = []; bad = None } }
    {
        let draft = self.draft;
        LinkWords {
            id: draft.id,
            source: draft.source,
            target: draft.target,
            installed: draft.first,
            installed_cost: draft.second,
            routing_cost: draft.third,
            setup_cost: draft.fourth,
            modules: mem::replace(&mut self.modules, Vec::new(alloc)),
            bad: self.bad.take(),
        }
    }

    fn push_module(&mut self, cost: Word<'a>) -> Result<(), AllocError>
        ensures added { OnOk result (sofar_view self.new
            ≡ add_module (sofar_view self.old) (word_view cost.entry)) }
        ensures skipped { self.new.rows.skipped ≡ self.old.rows.skipped }
    {
        let capacity = self.draft.capacity;
        self.bad = first_bad(self.bad, &capacity);
        self.modules.push(capacity.text)?;
        self.modules.push(cost.text)?;
        Ok(())
    }

    fn push_word(&mut self, word: Word<'a>) -> Result<(), AllocError>
        ensures added { OnOk result (sofar_view self.new
            ≡ record (sofar_view self.old)
            { words = (sofar_view self.old).words ++ (word_view word.entry).text ∷ [] }) }
        ensures skipped { self.new.rows.skipped ≡ self.old.rows.skipped }
    {
        self.words.push(word.text)?;
        Ok(())
    }

    /// At a left parenthesis.
    pub fn at_left(&mut self, mode: Mode)
        ensures put { sofar_view self.new ≡ put_left mode (sofar_view self.old) }
        ensures skipped { self.new.rows.skipped ≡ self.old.rows.skipped }
    {
        match mode {
            Mode::Node => self.words.clear(),
            Mode::Modules => {
                self.modules.clear();
                self.bad = None;
            }
            _ => {}
        }
    }

    /// At a right parenthesis.
    pub fn at_right(&mut self, alloc: Global, mode: Mode) -> Result<(), AllocError>
        requires { self.old.rows.skipped + 1 < 2 ^ 32 }
        ensures put { OnOk result (sofar_view self.new ≡ put_right mode (sofar_view self.old)) }
        ensures skipped { self.new.rows.skipped ≤ self.old.rows.skipped + 1 }
    {
        match mode {
            Mode::Skipping(_, 0) => {
                self.rows.skipped += 1;
                Ok(())
            }
            Mode::Node => push_node(&mut self.rows, self.draft.id, None),
            Mode::Place => {
                let words = mem::replace(&mut self.words, Vec::new(alloc));
                push_node(&mut self.rows, self.draft.id, Some(words))
            }
            Mode::Capacity => {
                let link = self.take_link(alloc);
                push_link(&mut self.rows, link)
            }
            _ => Ok(()),
        }
    }

    // The demand whose last word this is.
    fn demand(&self, longest: Word<'a>) -> DemandWords<'a>
        ensures { demand_view result ≡ demand_of (draft_view self.now.draft) (word_view longest.entry) }
    {
        DemandWords {
            id: self.draft.id,
            source: self.draft.source,
            target: self.draft.target,
            unit: self.draft.first,
            value: self.draft.second,
            longest,
        }
    }

    /// At a word.
    pub fn at_word(&mut self, mode: Mode, word: Word<'a>) -> Result<(), AllocError>
        ensures put { OnOk result (sofar_view self.new
            ≡ put_word mode (word_view word.entry) (sofar_view self.old)) }
        ensures skipped { self.new.rows.skipped ≡ self.old.rows.skipped }
    {
        match mode {
            Mode::Nodes | Mode::Links | Mode::Demands => self.draft.id = word,
            Mode::Node => {
                push_node(&mut self.rows, self.draft.id, None)?;
                self.draft.id = word;
            }
            Mode::LinkSource | Mode::DemandSource => self.draft.source = word,
            Mode::LinkTarget | Mode::DemandTarget => self.draft.target = word,
            Mode::Installed | Mode::Unit => self.draft.first = word,
            Mode::InstalledCost | Mode::Value => self.draft.second = word,
            Mode::RoutingCost => self.draft.third = word,
            Mode::SetupCost => self.draft.fourth = word,
            Mode::Capacity => self.draft.capacity = word,
            Mode::CapacityCost => return self.push_module(word),
            Mode::Place => return self.push_word(word),
            Mode::Longest => {
                let demand = self.demand(word);
                return push_demand(&mut self.rows, demand);
            }
            _ => {}
        }
        Ok(())
    }
}
