//! The words that workers share, and the passes by which they step: one word of claims, and one a cell. One worker alone has the
//! words to itself.

ghost use Rattle.std.specs.Prelude.{◌≡◌, ◌+◌, ◌-◌, ◌<◌, ◌≤◌, ◌==◌, [], ◌∷◌, length, slice_index, All, IfOk, if◌then◌else◌};
ghost use Rattle.flow_core.specs.Core.{IsStart, Leads, start, claim, read, add, claimed, has_read, has_added, amount_of};
ghost use Rattle.flow_model.specs.Groups.{group_count};
ghost use Rattle.load_table.specs.Seen.{IsPassOf, HasStepped};
ghost use Rattle.load_table.specs.Views.{first_view, with_work, cut, cut_off, joined};
ghost use Rattle.load_table.specs.Reading.{OneWhere, IsFresh, reads_all};
ghost use Rattle.load_table.specs.Adding.{IsReadyFor, HasAddedAll, adds_along, AreMoreAlong};
ghost use Rattle.flow_model.specs.Least.{AreDifferent};
ghost use Rattle.load_table.specs.Rule.{MayClaim, MayRead, MayAdd, MayClose, AllFallBelow, Closes, HasPlaced, KeepsWorks};
ghost use Rattle.load_table.specs.Places.{place};

use crate::places::{FEW_CELLS, place_of};
use crate::rule::{
    Adds, AddsAlone, AddsAlong, Claims, ClaimsAlone, Cuts, LoadRule, OfCell, OfCommodity, OfPath,
    Reads, ReadsAll, ReadsAlone,
};
use crate::view::{Known, Origin};
use atomic_table::{Seat, Table};
use flow_model::{Groups, Net, Setting};
use mcf_limits::{MAX_CELLS, MAX_LENGTH};
use std::alloc::{AllocError, Global};
use std::marker::{Brand, Model};
use std::snapshot::Snapshot;

/// The shared words, whose steps are single atomic ones. Where there is one worker, no other thread sees the words: its pass has
/// them, and steps on them plainly. Contracts see the table, and what the phase starts from: the network, whose groups these are,
/// the setting, the base and the number of workers.
#[derive(Drop)]
pub struct Loads {
    table: Table<(), Known, Origin, LoadRule, Global>,
    groups: u16,
    cells: u16,
    alone: bool,
    // whether words lie apart
    wide: bool,
    alloc: Global,
}

impl Model for Loads {
    ghost use Rattle.load_table.specs.Seen.{LoadsView, IsLoads};

    ghost Value = { LoadsView };

    ghost view = { λ l. record { table = l.table.shared.table_id; terms = l.table.shared.key } };

    ghost invariant = { λ l.
        IsLoads l.table.shared.table_id l.table.shared.key l.groups l.cells l.alone l.wide };
}

/// What some workers have done. Contracts see the table, and what the pass knows: its workers with their entries and stops, and
/// its splits left and made.
#[derive(Drop)]
pub struct Pass {
    seat: Seat<(), Known>,
    // the words, where there is one worker
    own: Vec<u64>,
}

impl Model for Pass {
    ghost use Rattle.std.specs.Prelude.{◌≡◌, []};
    ghost use Rattle.load_table.specs.Seen.{PassView, IsOwn};

    ghost Value = { PassView };

    ghost view = { λ p. record { table = p.seat.table_id; view = p.seat.me.0.view; seen = p.seat.me.0.seen } };

    ghost invariant = { λ p. (p.seat.me.1 ≡ []) × IsOwn p.seat.me.0 p.own.items };
}

// The bases that have a word in the table: where there is one worker, which has the words in its pass, none.
fn shared_bases(base: &[u64], workers: u16) -> &[u64]
    ensures { result.now ≡ if workers == 1 then [] else base.now }
{
    if workers == 1 { &base[..0] } else { base }
}

// The words of the table: 0, and each base, in its place.
fn words_placed(alloc: Global, wide: bool, base: &[u64]) -> Result<Vec<u64>, AllocError>
    requires { length base.now ≤ MAX_CELLS }
    ensures placed { IfOk result (λ v. HasPlaced wide v.items (0 ∷ base.now)) }
    ensures count { IfOk result (λ v. length v.items ≡ place wide (length base.now + 1)) }
{
    let mut words = vec![in alloc; 0u64; place_of(wide, base.len())]?;
    put_bases(wide, base, &mut words);
    Ok(words)
}

// Puts each base in its place.
fn put_bases(wide: bool, base: &[u64], words: &mut [u64])
    requires count { length words.old ≡ place wide (length base.now + 1) }
    requires few { length base.now ≤ MAX_CELLS }
    requires first { slice_index words.old 0 ≡ 0 }
    ensures placed { HasPlaced wide words.new (0 ∷ base.now) }
    ensures count { length words.new ≡ length words.old }
{
    for (cell, load) in base.iter().enumerate() {
        words[place_of(wide, cell)] = *load;
    }
}

fn words_over(alloc: Global, base: &[u64]) -> Result<Vec<u64>, AllocError>
    ensures { IfOk result (λ v. v.items ≡ 0 ∷ base.now) }
{
    let mut words = Vec::new(alloc);
    words.push(0)?;
    words.extend_from_slice(base)?;
    Ok(words)
}

// The words, where there is one worker.
fn own_words(alloc: Global, words: Vec<u64>, workers: u16) -> Vec<u64>
    ensures { workers ≡ 1 → result.items ≡ words.items }
{
    if workers == 1 { words } else { Vec::new(alloc) }
}

// Adds the amount to the word of each cell of a path.
fn put_along(own: &mut [u64], path: &[u16], amount: u64)
    requires inside { All (λ c. c + 1 < length own.old) path.now }
    requires different { AreDifferent path.now }
    ensures { AreMoreAlong amount path.now own.old own.new }
{
    for cell in path {
        let word = *cell as usize + 1;
        own[word] = own[word].wrapping_add(amount);
    }
}

impl Loads {
    /// Word 0 is 0, and each cell's word is its base. The pass is that of worker 0, with a split for each other worker. `Err`: out
    /// of memory.
    pub fn new(
        alloc: Global,
        net: &Net,
        groups: &Groups,
        setting: Setting,
        base: &[u64],
        workers: u16,
    ) -> Result<(Loads, Pass), AllocError>
        requires groups { groups.now ≡ net.now }
        requires start { IsStart record { net = net.now; setting = setting; base = base.now; workers = workers } }
        ensures loads { IfOk result (λ r. r.0.terms
            ≡ record { net = net.now; setting = setting; base = base.now; workers = workers }) }
        ensures pass { IfOk result (λ r. IsPassOf r.0 r.1 × (r.1.view ≡ first_view r.0.terms)) }
        ensures seen { IfOk result (λ r. r.1.seen ≡ start r.0.terms) }
    {
        let words = words_over(alloc, base)?;
        let origin = Origin {
            net: Snapshot::of(net),
            setting,
            words: Snapshot::of(&words),
            workers,
        };
        let wide = base.len() <= FEW_CELLS;
        let placed = words_placed(alloc, wide, shared_bases(base, workers))?;
        let (table, seat) = Table::of_words(alloc, placed.as_slice(), &origin)?;
        Ok((
            Loads {
                table,
                groups: groups.count(),
                cells: base.len() as u16,
                alone: workers == 1,
                wide,
                alloc,
            },
            Pass {
                seat,
                own: own_words(alloc, words, workers),
            },
        ))
    }

    /// How many tickets stand for a group: any other says that all have been claimed.
    pub fn group_count(&self) -> u16
        ensures { result ≡ group_count self.now.terms.net }
    {
        self.groups
    }

    /// How many cells there are.
    pub fn cell_count(&self) -> u16
        ensures { result ≡ length self.now.terms.net.cells }
    {
        self.cells
    }

    /// A pass for the next worker, which has done nothing.
    pub fn split(&self, pass: &mut Pass) -> Pass
        requires of { IsPassOf self.now pass.old }
        requires left { 0 < pass.old.view.left }
        ensures of { IsPassOf self.now pass.new × IsPassOf self.now result }
        ensures views { (pass.new.view ≡ cut pass.old.view) × (result.view ≡ cut_off pass.old.view) }
        ensures seen { (pass.new.seen ≡ pass.old.seen) × (result.seen ≡ pass.old.seen) }
    {
        let seat = self.table.shared.split_seat::<Cuts>(&mut pass.seat);
        Pass {
            seat,
            own: Vec::new(self.alloc),
        }
    }

    fn claim_shared(&self, pass: &mut Pass) -> u64
        requires several { 1 < self.now.terms.workers }
        requires of { IsPassOf self.now pass.old }
        requires may { MayClaim self.now.terms pass.old.view.hands }
        ensures of { IsPassOf self.now pass.new }
        ensures view { pass.new.view ≡ with_work (claimed (group_count self.now.terms.net) result) pass.old.view }
        ensures step { HasStepped self.now pass.old pass.new claim 0 result }
        ensures order { AllFallBelow result pass.old.view.hands }
    {
        self.table.shared.fetch_add::<Claims>(&mut pass.seat, 0, 1)
    }

    fn claim_alone(&self, pass: &mut Pass) -> u64
        requires one { self.now.terms.workers ≡ 1 }
        requires of { IsPassOf self.now pass.old }
        requires may { MayClaim self.now.terms pass.old.view.hands }
        ensures of { IsPassOf self.now pass.new }
        ensures view { pass.new.view ≡ with_work (claimed (group_count self.now.terms.net) result) pass.old.view }
        ensures step { HasStepped self.now pass.old pass.new claim 0 result }
        ensures order { AllFallBelow result pass.old.view.hands }
    {
        let found = pass.own[0];
        self.table.shared.load::<ClaimsAlone>(&mut pass.seat, 0);
        pass.own[0] = found.wrapping_add(1);
        found
    }

    /// Takes a ticket by one `fetch_add` on word 0, or plainly where there is one worker. One below the number of groups is the
    /// group to route, any other says that all have been claimed.
    pub fn claim(&self, pass: &mut Pass) -> u64
        requires of { IsPassOf self.now pass.old }
        requires may { MayClaim self.now.terms pass.old.view.hands }
        ensures of { IsPassOf self.now pass.new }
        ensures view { pass.new.view ≡ with_work (claimed (group_count self.now.terms.net) result) pass.old.view }
        ensures step { HasStepped self.now pass.old pass.new claim 0 result }
        ensures order { AllFallBelow result pass.old.view.hands }
    {
        if self.alone {
            self.claim_alone(pass)
        } else {
            self.claim_shared(pass)
        }
    }

    // The step does not see which cell it is at: the parameter tells the proof.
    fn read_shared<L: OfCell>(&self, pass: &mut Pass, cell: u16) -> u64
        requires placed { cell ≡ L.cell }
        requires several { 1 < self.now.terms.workers }
        requires of { IsPassOf self.now pass.old }
        requires may { MayRead self.now.terms cell pass.old.view.hands }
        ensures of { IsPassOf self.now pass.new }
        ensures view { pass.new.view ≡ with_work (has_read result) pass.old.view }
        ensures step { HasStepped self.now pass.old pass.new read (cell + 1) result }
        ensures within { result ≤ MAX_LENGTH }
    {
        let word = place_of(self.wide, cell as usize);
        self.table.shared.load::<Reads<L>>(&mut pass.seat, word)
    }

    // The step does not see which cell of the pass's own words it is at: the parameter tells the proof.
    fn read_at<L: OfCell>(&self, pass: &mut Pass, cell: u16) -> u64
        requires placed { cell ≡ L.cell }
        requires one { self.now.terms.workers ≡ 1 }
        requires of { IsPassOf self.now pass.old }
        requires may { MayRead self.now.terms cell pass.old.view.hands }
        ensures of { IsPassOf self.now pass.new }
        ensures view { pass.new.view ≡ with_work (has_read result) pass.old.view }
        ensures step { HasStepped self.now pass.old pass.new read (cell + 1) result }
        ensures within { result ≤ MAX_LENGTH }
    {
        let found = pass.own[cell as usize + 1];
        self.table.shared.load::<ReadsAlone<L>>(&mut pass.seat, 0);
        found
    }

    /// Reads a cell's word by one load, or plainly where there is one worker. Cells are read in order.
    pub fn read_cell(&self, pass: &mut Pass, cell: u16) -> u64
        requires of { IsPassOf self.now pass.old }
        requires may { MayRead self.now.terms cell pass.old.view.hands }
        ensures of { IsPassOf self.now pass.new }
        ensures view { pass.new.view ≡ with_work (has_read result) pass.old.view }
        ensures step { HasStepped self.now pass.old pass.new read (cell + 1) result }
        ensures within { result ≤ MAX_LENGTH }
    {
        if self.alone {
            self.read_at::<Brand>(pass, cell)
        } else {
            self.read_shared::<Brand>(pass, cell)
        }
    }

    fn read_each(&self, pass: &mut Pass, reads: &mut [u64])
        requires several { 1 < self.now.terms.workers }
        requires of { IsPassOf self.now pass.old }
        requires fresh { OneWhere IsFresh pass.old.view.hands }
        requires room { length reads.old ≡ length self.now.terms.net.cells }
        ensures of { IsPassOf self.now pass.new }
        ensures view { pass.new.view ≡ with_work (reads_all reads.new) pass.old.view }
        ensures since { Leads self.now.terms pass.old.seen pass.new.seen }
        ensures works { KeepsWorks pass.old.seen pass.old.view.hands pass.new.seen pass.new.view.hands }
        ensures small { All (λ x. x ≤ MAX_LENGTH) reads.new }
    {
        for cell in 0..self.cell_count() {
            reads[cell as usize] = self.read_shared::<Brand>(pass, cell);
        }
    }

    fn read_own(&self, pass: &mut Pass, reads: &mut [u64])
        requires one { self.now.terms.workers ≡ 1 }
        requires of { IsPassOf self.now pass.old }
        requires fresh { OneWhere IsFresh pass.old.view.hands }
        requires room { length reads.old ≡ length self.now.terms.net.cells }
        ensures of { IsPassOf self.now pass.new }
        ensures view { pass.new.view ≡ with_work (reads_all reads.new) pass.old.view }
        ensures since { Leads self.now.terms pass.old.seen pass.new.seen }
        ensures works { KeepsWorks pass.old.seen pass.old.view.hands pass.new.seen pass.new.view.hands }
        ensures small { All (λ x. x ≤ MAX_LENGTH) reads.new }
    {
        self.table.shared.load::<ReadsAll>(&mut pass.seat, 0);
        reads.copy_from_slice(&pass.own[1..]);
    }

    /// Reads each cell's word by one load, in order, for the group that was claimed; where there is one worker, all of them plainly.
    pub fn read_all(&self, pass: &mut Pass, reads: &mut [u64])
        requires of { IsPassOf self.now pass.old }
        requires fresh { OneWhere IsFresh pass.old.view.hands }
        requires room { length reads.old ≡ length self.now.terms.net.cells }
        ensures of { IsPassOf self.now pass.new }
        ensures view { pass.new.view ≡ with_work (reads_all reads.new) pass.old.view }
        ensures since { Leads self.now.terms pass.old.seen pass.new.seen }
        ensures works { KeepsWorks pass.old.seen pass.old.view.hands pass.new.seen pass.new.view.hands }
        ensures small { All (λ x. x ≤ MAX_LENGTH) reads.new }
    {
        if self.alone {
            self.read_own(pass, reads)
        } else {
            self.read_each(pass, reads)
        }
    }

    // The step sees the amount, and not which commodity it is for, nor at which cell: the parameters tell the proof.
    fn add_for<J: OfCommodity, L: OfCell>(
        &self,
        pass: &mut Pass,
        k: u32,
        amount: u64,
        cell: u16,
    ) -> u64
        requires named { k ≡ J.commodity }
        requires amount { amount ≡ amount_of self.now.terms k }
        requires placed { cell ≡ L.cell }
        requires several { 1 < self.now.terms.workers }
        requires of { IsPassOf self.now pass.old }
        requires may { MayAdd self.now.terms k cell pass.old.view.hands }
        ensures of { IsPassOf self.now pass.new }
        ensures view { pass.new.view ≡ with_work (has_added J.commodity cell result) pass.old.view }
        ensures step { HasStepped self.now pass.old pass.new (λ w. add w J.commodity cell) (cell + 1) result }
    {
        let _ = k;
        let word = place_of(self.wide, cell as usize);
        let shared = &self.table.shared;
        shared.fetch_add::<Adds<J, L>>(&mut pass.seat, word, amount)
    }

    // Nor at which cell of the pass's own words.
    fn add_at<J: OfCommodity, L: OfCell>(
        &self,
        pass: &mut Pass,
        k: u32,
        amount: u64,
        cell: u16,
    ) -> u64
        requires named { k ≡ J.commodity }
        requires amount { amount ≡ amount_of self.now.terms k }
        requires placed { cell ≡ L.cell }
        requires one { self.now.terms.workers ≡ 1 }
        requires of { IsPassOf self.now pass.old }
        requires may { MayAdd self.now.terms k cell pass.old.view.hands }
        ensures of { IsPassOf self.now pass.new }
        ensures view { pass.new.view ≡ with_work (has_added J.commodity cell result) pass.old.view }
        ensures step { HasStepped self.now pass.old pass.new (λ w. add w J.commodity cell) (cell + 1) result }
    {
        let _ = k;
        let word = cell as usize + 1;
        let found = pass.own[word];
        self.table.shared.load::<AddsAlone<J, L>>(&mut pass.seat, 0);
        pass.own[word] = found.wrapping_add(amount);
        found
    }

    /// Adds a commodity's amount, which the caller has at hand, to a cell by one `fetch_add`, or plainly where there is one worker, and
    /// answers the word before it.
    pub fn add_cell(&self, pass: &mut Pass, k: u32, amount: u64, cell: u16) -> u64
        requires amount { amount ≡ amount_of self.now.terms k }
        requires of { IsPassOf self.now pass.old }
        requires may { MayAdd self.now.terms k cell pass.old.view.hands }
        ensures of { IsPassOf self.now pass.new }
        ensures view { pass.new.view ≡ with_work (has_added k cell result) pass.old.view }
        ensures step { HasStepped self.now pass.old pass.new (λ w. add w k cell) (cell + 1) result }
    {
        if self.alone {
            self.add_at::<Brand, Brand>(pass, k, amount, cell)
        } else {
            self.add_for::<Brand, Brand>(pass, k, amount, cell)
        }
    }

    fn add_each(&self, pass: &mut Pass, k: u32, amount: u64, path: &[u16])
        requires amount { amount ≡ amount_of self.now.terms k }
        requires several { 1 < self.now.terms.workers }
        requires of { IsPassOf self.now pass.old }
        requires ready { OneWhere (IsReadyFor self.now.terms k) pass.old.view.hands }
        requires inside { All (λ c. c < length self.now.terms.net.cells) path.now }
        requires different { AreDifferent path.now }
        ensures of { IsPassOf self.now pass.new }
        ensures view { HasAddedAll (adds_along k path.now) pass.old.view pass.new.view }
        ensures since { Leads self.now.terms pass.old.seen pass.new.seen }
        ensures works { KeepsWorks pass.old.seen pass.old.view.hands pass.new.seen pass.new.view.hands }
    {
        for cell in path {
            self.add_for::<Brand, Brand>(pass, k, amount, *cell);
        }
    }

    // The step does not see along which path it is: the parameter tells the proof.
    fn add_along<J: OfCommodity, L: OfPath>(
        &self,
        pass: &mut Pass,
        k: u32,
        amount: u64,
        path: &[u16],
    )
        requires named { k ≡ J.commodity }
        requires amount { amount ≡ amount_of self.now.terms k }
        requires placed { path.now ≡ L.path }
        requires one { self.now.terms.workers ≡ 1 }
        requires of { IsPassOf self.now pass.old }
        requires ready { OneWhere (IsReadyFor self.now.terms k) pass.old.view.hands }
        requires inside { All (λ c. c < length self.now.terms.net.cells) path.now }
        requires different { AreDifferent path.now }
        ensures of { IsPassOf self.now pass.new }
        ensures view { HasAddedAll (adds_along k path.now) pass.old.view pass.new.view }
        ensures since { Leads self.now.terms pass.old.seen pass.new.seen }
        ensures works { KeepsWorks pass.old.seen pass.old.view.hands pass.new.seen pass.new.view.hands }
    {
        let _ = k;
        self.table.shared.load::<AddsAlong<J, L>>(&mut pass.seat, 0);
        put_along(&mut pass.own, path, amount);
    }

    /// Adds a commodity's amount, which the caller has at hand, to each cell of a path, in order, by one `fetch_add` each, or plainly where
    /// there is one worker. What the entry has added before is of commodities below it alone.
    pub fn add_path(&self, pass: &mut Pass, k: u32, amount: u64, path: &[u16])
        requires amount { amount ≡ amount_of self.now.terms k }
        requires of { IsPassOf self.now pass.old }
        requires ready { OneWhere (IsReadyFor self.now.terms k) pass.old.view.hands }
        requires inside { All (λ c. c < length self.now.terms.net.cells) path.now }
        requires different { AreDifferent path.now }
        ensures of { IsPassOf self.now pass.new }
        ensures view { HasAddedAll (adds_along k path.now) pass.old.view pass.new.view }
        ensures since { Leads self.now.terms pass.old.seen pass.new.seen }
        ensures works { KeepsWorks pass.old.seen pass.old.view.hands pass.new.seen pass.new.view.hands }
    {
        if self.alone {
            self.add_along::<Brand, Brand>(pass, k, amount, path)
        } else {
            self.add_each(pass, k, amount, path)
        }
    }

    /// Hands what the other pass has to this one.
    pub fn join(&self, pass: &mut Pass, other: Pass)
        requires of { IsPassOf self.now pass.old × IsPassOf self.now other }
        ensures of { IsPassOf self.now pass.new }
        ensures view { pass.new.view ≡ joined pass.old.view other.view }
        ensures seen { pass.new.seen ≡ pass.old.seen }
    {
        let Pass { seat, own: _ } = other;
        self.table.shared.join_seat::<Cuts>(&mut pass.seat, seat);
    }

    fn close_shared(self, pass: Pass, into: &mut [u64])
        requires several { 1 < self.terms.workers }
        requires of { IsPassOf self pass }
        requires whole { MayClose self.terms pass.view }
        requires room { length into.old ≡ length self.terms.net.cells }
        ensures { Closes self.terms pass.seen pass.view.hands into.new }
    {
        let Loads { table, wide, .. } = self;
        let Pass { seat, own: _ } = pass;
        let closed = table.close_with(seat);
        for i in 0..into.len() {
            into[i] = closed.word(place_of(wide, i));
        }
        closed.free();
    }

    fn close_alone(self, pass: Pass, into: &mut [u64])
        requires one { self.terms.workers ≡ 1 }
        requires of { IsPassOf self pass }
        requires whole { MayClose self.terms pass.view }
        requires room { length into.old ≡ length self.terms.net.cells }
        ensures { Closes self.terms pass.seen pass.view.hands into.new }
    {
        let Loads { table, .. } = self;
        let Pass { seat, own } = pass;
        table.close_with(seat).free();
        into.copy_from_slice(&own[1..]);
    }

    /// Puts the load of each cell in its place: the base and all adds. Some schedule leads there with the entries and stops of the
    /// pass and no others.
    pub fn close(self, pass: Pass, into: &mut [u64])
        requires of { IsPassOf self pass }
        requires whole { MayClose self.terms pass.view }
        requires room { length into.old ≡ length self.terms.net.cells }
        ensures { Closes self.terms pass.seen pass.view.hands into.new }
    {
        if self.alone {
            self.close_alone(pass, into)
        } else {
            self.close_shared(pass, into)
        }
    }
}
