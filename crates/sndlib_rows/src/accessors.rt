//! What a network that was read hands out.

ghost use Rattle.std.specs.Prelude.{◌≡◌, ◌<◌, map, length, position};
ghost use Rattle.std.specs.Option.{option_map};
ghost use Rattle.std.specs.Str.{bytes_eq};
ghost use Rattle.sndlib_grammar.specs.Rows.{AreNetRows, node_at, link_at, demand_at, names_of_nodes, names_of_links, names_of_demands};
ghost use Rattle.sndlib_rows.specs.Parts.{IsPartOf};
ghost use Rattle.sndlib_rows.specs.RowViews.{link_row_view, demand_row_view};

use crate::names::number_of;
use crate::net::RawNet;
use crate::part::NetPart;
use crate::row::{DemandRow, LinkRow};

impl<'a> RawNet<'a> {
    // Nodes and links, with what is kept beside their rows.
    fn part(&self) -> &NetPart<'a>
        ensures part { IsPartOf result.now self.now }
        ensures rows { AreNetRows self.now }
    {
        &self.part
    }

    /// How many nodes there are.
    pub fn nodes(&self) -> u16
        ensures value { result ≡ length self.now.nodes }
        ensures rows { AreNetRows self.now }
    {
        self.part().nodes.len() as u16
    }

    /// How many links there are.
    pub fn links(&self) -> u16
        ensures value { result ≡ length self.now.links }
        ensures rows { AreNetRows self.now }
    {
        self.part().links.len() as u16
    }

    /// How many demands there are.
    pub fn demands(&self) -> u32
        ensures value { result ≡ length self.now.demands }
        ensures rows { AreNetRows self.now }
    {
        self.demands.len() as u32
    }

    /// How many sections were skipped.
    pub fn skipped(&self) -> u32
        ensures { result ≡ self.now.skipped }
    {
        self.part().skipped
    }

    /// The line of the end of the text.
    pub fn end_line(&self) -> u32
        ensures { result ≡ self.now.end_line }
    {
        self.part().end_line
    }

    /// The id of the node of that number.
    pub fn node_id(&self, i: u16) -> &'a [u8]
        requires { i < length self.now.nodes }
        ensures { result.now ≡ (node_at self.now i).id }
    {
        self.part().nodes[i as usize].id.text
    }

    /// The words in the parentheses of a node, and `None` exactly where there were none.
    pub fn node_place(&self, i: u16) -> Option<&[&'a [u8]]>
        requires { i < length self.now.nodes }
        ensures { option_map (λ words. map (λ w. w.now) words.now) result ≡ (node_at self.now i).place }
    {
        let node = &self.part().nodes[i as usize];
        match &node.place {
            None => None,
            Some(words) => Some(words.as_slice()),
        }
    }

    /// The link of that number, without its modules.
    pub fn link(&self, i: u16) -> LinkRow<'a>
        requires { i < length self.now.links }
        ensures { link_row_view result (link_at self.now i).modules ≡ link_at self.now i }
    {
        let part = self.part();
        let words = &part.links[i as usize];
        let ends = part.link_ends[i as usize];
        LinkRow {
            id: words.id.text,
            source: ends.source,
            target: ends.target,
            installed: words.installed.text,
            costs: [
                words.installed_cost.text,
                words.routing_cost.text,
                words.setup_cost.text,
            ],
            line: words.id.line,
        }
    }

    /// The words of the modules of that link, a capacity and a cost in turn.
    pub fn modules(&self, i: u16) -> &[&'a [u8]]
        requires { i < length self.now.links }
        ensures { map (λ w. w.now) result.now ≡ (link_at self.now i).modules }
    {
        let words = &self.part().links[i as usize];
        words.modules.as_slice()
    }

    /// The demand of that number.
    pub fn demand(&self, i: u32) -> DemandRow<'a>
        requires { i < length self.now.demands }
        ensures { demand_row_view result ≡ demand_at self.now i }
    {
        self.demands[i as usize]
    }

    /// The number of the node of that id, and `None` exactly where no row has it.
    pub fn node_named(&self, id: &[u8]) -> Option<u16>
        ensures { result ≡ position (bytes_eq id.now) (names_of_nodes self.now) }
    {
        match number_of(&self.part().node_names, id) {
            Some(i) => Some(i as u16),
            None => None,
        }
    }

    /// The number of the link of that id, and `None` exactly where no row has it.
    pub fn link_named(&self, id: &[u8]) -> Option<u16>
        ensures { result ≡ position (bytes_eq id.now) (names_of_links self.now) }
    {
        match number_of(&self.part().link_names, id) {
            Some(i) => Some(i as u16),
            None => None,
        }
    }

    /// The number of the demand of that id, and `None` exactly where no row has it.
    pub fn demand_named(&self, id: &[u8]) -> Option<u32>
        ensures { result ≡ position (bytes_eq id.now) (names_of_demands self.now) }
    {
        match number_of(&self.demand_names, id) {
            Some(i) => Some(i as u32),
            None => None,
        }
    }
}
