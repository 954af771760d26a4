//! The cells of all paths in one buffer, with room made beforehand.

ghost use Rattle.std.specs.Prelude.{◌≡◌, ◌+◌, ◌-◌, ◌<◌, ◌≤◌, ◌++◌, [], ◌∷◌, Some, drop, length, replicate, slice_range, OnOk, vec_len, vec_capacity};
ghost use Rattle.flow_core.specs.Core.{amount_of};
ghost use Rattle.dijkstra_paths.specs.Searched.{path_at};
ghost use Rattle.load_table.specs.Seen.{IsPassOf};
ghost use Rattle.load_table.specs.Reading.{OneWhere};
ghost use Rattle.load_table.specs.Adding.{IsReadyFor, HasAddedAll, adds_along};
ghost use Rattle.phase_engine.specs.Found.{HasPath, known_path};

use dijkstra_paths::Scratch;
use load_table::{Loads, Pass};
use std::alloc::{AllocError, Global};
use std::marker::Model;

/// A commodity, and where the cells of its path stand: how many places before the end of the buffer the first of them is.
#[derive(Clone, Copy, Debug, PartialEq, Eq)]
pub(crate) struct Span {
    pub commodity: u32,
    pub back: usize,
    pub len: usize,
}

/// Routes. Contracts see them, how many more routes and cells there is room for, and how many of these cells are ready. Cells fill the
/// buffer from its end on, each path before the last one, since a search tells a path from its end on: so it is written once. The first
/// `free` places are ready for more. What there is room for beyond them is made ready as it is needed: the longest paths of a group may
/// take far more than its paths do.
#[derive(Drop)]
pub(crate) struct RouteBuffer {
    spans: Vec<Span>,
    cells: Vec<u16>,
    free: usize,
}

impl Model for RouteBuffer {
    ghost use Rattle.std.specs.Prelude.{◌+◌, ◌-◌, map, vec_len, vec_capacity};
    ghost use Rattle.phase_engine.specs.Routes.{RouteRoom, route_of, AreSpans};

    ghost Value = { RouteRoom };

    ghost view = { λ b. record {
      routes = map (route_of b.cells.items) b.spans.items;
      paths = vec_capacity b.spans - vec_len b.spans;
      cells = b.free + (vec_capacity b.cells - vec_len b.cells);
      ready = b.free;
    } };

    ghost invariant = { λ b. AreSpans b.cells.items b.free b.spans.items };
}

impl RouteBuffer {
    ghost use Rattle.std.specs.Prelude.{◌≡◌, ◌+◌, ◌-◌, ◌<◌, ◌≤◌, ◌++◌, [], ◌∷◌, length, OnOk, slice_index_or};
    ghost use Rattle.phase_engine.specs.Routes.{Route};

    pub(crate) fn new(alloc: Global) -> Self
        ensures { result.routes ≡ [] }
    {
        RouteBuffer {
            spans: Vec::new(alloc),
            cells: Vec::new(alloc),
            free: 0,
        }
    }

    pub(crate) fn len(&self) -> usize
        ensures { result ≡ length self.now.routes }
    {
        self.spans.len()
    }

    pub(crate) fn commodity(&self, i: usize) -> u32
        requires { i < length self.now.routes }
        ensures { result ≡ (slice_index_or self.now.routes i (record { commodity = 0; path = [] })).commodity }
    {
        self.spans.as_slice()[i].commodity
    }

    pub(crate) fn path(&self, i: usize) -> &[u16]
        requires { i < length self.now.routes }
        ensures { result.now ≡ (slice_index_or self.now.routes i (record { commodity = 0; path = [] })).path }
    {
        let span = self.spans.as_slice()[i];
        let start = self.cells.len() - span.back;
        &self.cells[start..start + span.len]
    }

    pub(crate) fn clear(&mut self)
        ensures empty { self.new.routes ≡ [] }
        ensures paths { self.old.paths ≤ self.new.paths }
        ensures cells { self.old.cells ≤ self.new.cells }
    {
        self.spans.clear();
        self.free = self.cells.len();
    }

    // Makes `cells` more places ready, or as many as there are already if that is more, of those that there is room for.
    fn widen(&mut self, cells: usize)
        requires { cells ≤ self.old.cells }
        ensures same { self.new.routes ≡ self.old.routes }
        ensures paths { self.new.paths ≡ self.old.paths }
        ensures cells { self.new.cells ≡ self.old.cells }
        ensures ready { cells ≤ self.new.ready }
    {
        let len = self.cells.len();
        let more = cells.max(len).min(self.cells.capacity() - len);
        append_blank(&mut self.cells, more);
        self.cells.rotate_right(more);
        self.free += more;
    }

    /// Makes `cells` places ready, for which there is room.
    pub(crate) fn make_ready(&mut self, cells: usize)
        requires { cells ≤ self.old.cells }
        ensures same { self.new.routes ≡ self.old.routes }
        ensures paths { self.new.paths ≡ self.old.paths }
        ensures cells { self.new.cells ≡ self.old.cells }
        ensures ready { cells ≤ self.new.ready }
    {
        if self.free < cells {
            self.widen(cells);
        }
    }

    /// Makes room for `paths` more paths, of `cells` cells together.
    pub(crate) fn reserve(&mut self, paths: usize, cells: usize) -> Result<(), AllocError>
        ensures same { self.new.routes ≡ self.old.routes }
        ensures paths { OnOk result (paths ≤ self.new.paths) }
        ensures cells { OnOk result (cells ≤ self.new.cells) }
    {
        self.spans.reserve(paths)?;
        self.cells.reserve(cells.saturating_sub(self.free))
    }

    /// Adds the commodity's amount to each cell of the path that the search found to a node, and appends the route, for which there is
    /// room.
    pub(crate) fn add_route(
        &mut self,
        loads: &Loads,
        pass: &mut Pass,
        commodity: u32,
        amount: u64,
        scratch: &Scratch,
        to: u16,
    )
        requires amount { amount ≡ amount_of loads.now.terms commodity }
        requires of { IsPassOf loads.now pass.old }
        requires may { OneWhere (IsReadyFor loads.now.terms commodity) pass.old.view.hands }
        requires to { to < scratch.now.nodes }
        requires path { HasPath loads.now.terms.net.cells scratch.now to }
        requires paths { 0 < self.old.paths }
        requires ready { scratch.now.nodes ≤ self.old.ready }
        ensures of { IsPassOf loads.now pass.new }
        ensures view { HasAddedAll (adds_along commodity (known_path scratch.now to)) pass.old.view pass.new.view }
        ensures routes { self.new.routes ≡ self.old.routes ++ record
            { commodity = commodity; path = known_path scratch.now to } ∷ [] }
        ensures paths { self.new.paths ≡ self.old.paths - 1 }
        ensures cells { self.new.cells + length (known_path scratch.now to) ≡ self.old.cells }
    {
        let free = self.free;
        let start = put_before(&mut self.cells, free, scratch, to);
        loads.add_path(pass, commodity, amount, &self.cells[start..free]);
        self.spans.push_reserved(Span {
            commodity,
            back: self.cells.len() - start,
            len: free - start,
        });
        self.free = start;
    }
}

// Appends `count` blank cells, for which there is room.
fn append_blank(cells: &mut Vec<u16>, count: usize)
    requires { vec_len cells.old + count ≤ vec_capacity cells.old }
    ensures items { cells.new.items ≡ cells.old.items ++ replicate count 0 }
    ensures len { vec_len cells.new ≡ vec_len cells.old + count }
    ensures capacity { vec_capacity cells.new ≡ vec_capacity cells.old }
{
    for _ in 0..count {
        cells.push_reserved(0);
    }
}

// Puts the cells of the path that the search found to a node at the end of those that are free, and answers where they begin.
#[inline(always)]
fn put_before(cells: &mut [u16], free: usize, scratch: &Scratch, to: u16) -> usize
    requires to { to < scratch.now.nodes }
    requires found { path_at scratch.now to ≡ Some (known_path scratch.now to) }
    requires free { free ≤ length cells.old }
    requires room { scratch.now.nodes ≤ free }
    ensures start { result ≤ free }
    ensures path { slice_range cells.new result free ≡ known_path scratch.now to }
    ensures behind { drop free cells.new ≡ drop free cells.old }
{
    match scratch.put_path(to, &mut cells[..free]) {
        Some(start) => start,
        None => unreachable!(),
    }
}
