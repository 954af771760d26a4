//! The words of nodes, cells and commodities, as the rows of a network text have them.

use crate::form::Form;
use crate::signed::{named_cell, sign_of_cell};
use sndlib_rows::RawNet;
use std::marker::Model;
use unit_scale::{Scaled, link_word, module_word, name_of, old_link_word};

/// What a certificate's text cites of a network in one form: a view of its rows and of its network in
/// units, which takes no memory. In form 1 there are no words for bidirected links: names of form 1
/// serve reading alone.
#[derive(Drop)]
pub struct Names<'a, 'n> {
    rows: &'a RawNet<'n>,
    net: &'a Scaled,
    form: Form,
}

impl<'a, 'n> Model for Names<'a, 'n> {
    ghost use Rattle.cert_lines.specs.Sheet.{Sheet, sheets_of, sheet_for, IsOf};

    ghost Value = { Sheet };

    ghost view = { λ s. sheet_for (sheets_of s.rows.now s.net.now) s.form };

    ghost invariant = { λ s. IsOf s.rows.now s.net.now };
}

impl<'a, 'n> Names<'a, 'n> {
    ghost use Rattle.std.specs.Prelude.{◌≡◌, ◌<◌, ◌++◌, length};
    ghost use Rattle.cert_lines.specs.Sheet.{node_word, cell_word, cell_sign, cell_id};
    ghost use Rattle.cert_lines.specs.Sheet.{commodity_word, place_of, sheets_of, sheet_for, IsOf, IsWithin};

    /// The words of these rows and of their network in units, in this form.
    pub fn new(rows: &'a RawNet<'n>, net: &'a Scaled, form: Form) -> Self
        requires { IsOf rows.now net.now }
        ensures { result ≡ sheet_for (sheets_of rows.now net.now) form }
    {
        Names { rows, net, form }
    }

    /// The number of the form, as the first line says it.
    pub fn form(&self) -> &'static [u8]
        ensures { result.now ≡ self.now.form }
    {
        match self.form {
            Form::First => b"1",
            Form::Second => b"2",
        }
    }

    /// How links are read, as line 3 or 2 says it. For bidirected links in form 1 it is empty, which no
    /// line says.
    pub fn link_mode(&self) -> &'static [u8]
        ensures { result.now ≡ self.now.link_mode }
    {
        match self.form {
            Form::First => old_link_word(self.net.options().links),
            Form::Second => link_word(self.net.options().links),
        }
    }

    /// How modules are read, as line 4 or 3 says it.
    pub fn module_mode(&self) -> &'static [u8]
        ensures { result.now ≡ self.now.module_mode }
    {
        module_word(self.net.options().modules)
    }

    /// How many nodes there are.
    pub fn nodes(&self) -> usize
        ensures value { result ≡ length self.now.nodes }
        ensures within { IsWithin self.now }
    {
        self.rows.nodes() as usize
    }

    /// The counts of nodes, cells, commodities, decimals, skipped sections, demands left out and demands
    /// with a longest path.
    pub fn counts(&self) -> [u32; 7]
        ensures { result ≡ self.now.counts }
    {
        [
            self.rows.nodes() as u32,
            self.net.net().cells().len() as u32,
            self.net.commodities(),
            self.net.decimals() as u32,
            self.rows.skipped(),
            self.net.left(),
            self.net.hops(),
        ]
    }

    /// The node of that word, and `None` exactly where none has it.
    pub fn node_named(&self, word: &[u8]) -> Option<u16>
        ensures { result ≡ place_of self.now.nodes word.now }
    {
        self.rows.node_named(word)
    }

    /// The cell of that word, and `None` exactly where none has it.
    pub fn cell_named(&self, word: &[u8]) -> Option<u16>
        ensures { result ≡ place_of self.now.cells word.now }
    {
        match self.form {
            Form::First => self.rows.link_named(word),
            Form::Second => named_cell(self.rows, self.net.options().links, word),
        }
    }

    /// The commodity of that word, and `None` exactly where none has it.
    pub fn commodity_named(&self, word: &[u8]) -> Option<u32>
        ensures { result ≡ place_of self.now.commodities word.now }
    {
        match self.rows.demand_named(word) {
            Some(demand) => self.net.commodity_of(demand),
            None => None,
        }
    }

    /// The word of a node.
    pub fn node_word(&self, v: u16) -> &'a [u8]
        requires { v < length self.now.nodes }
        ensures { result.now ≡ node_word self.now v }
    {
        self.rows.node_id(v)
    }

    /// What the word of a cell begins with, before the id of its link: nothing in form 1, a sign in
    /// form 2.
    pub fn cell_sign(&self, c: u16) -> &'static [u8]
        requires { c < length self.now.cells }
        ensures { result.now ≡ cell_sign self.now c }
    {
        match self.form {
            Form::First => b"",
            Form::Second => sign_of_cell(self.net.options().links, c),
        }
    }

    /// The id of a cell's link, with which its word ends.
    pub fn cell_id(&self, c: u16) -> &'a [u8]
        requires { c < length self.now.cells }
        ensures id { result.now ≡ cell_id self.now c }
        ensures word { cell_sign self.now c ++ result.now ≡ cell_word self.now c }
    {
        match self.form {
            Form::First => self.rows.link(c).id,
            Form::Second => self.rows.link(name_of(self.net.options().links, c).link).id,
        }
    }

    /// The word of a commodity.
    pub fn commodity_word(&self, k: u32) -> &'a [u8]
        requires { k < length self.now.commodities }
        ensures { result.now ≡ commodity_word self.now k }
    {
        self.rows.demand(self.net.demand_of(k)).id
    }
}
