//! Each row is a list of calls with their answers.

ghost use Rattle.std.specs.Prelude.{◌≡◌, ℕ, [], ◌∷◌, IfOk, length};
ghost use Rattle.flow_core.specs.Core.{idle};
ghost use Rattle.load_table.specs.Seen.{IsPassOf};
ghost use Rattle.load_table.specs.Views.{hand};

use crate::is_least_path;
use flow_model::{Cell, Commodity, Groups, Net, Setting};
use load_table::{Loads, Pass};
use std::alloc::{AllocError, Global};
use std::test::Fail;
use std::thread::join;

const FIRST: Setting = Setting {
    first: true,
    ref_cap: 0,
    ref_load: 1,
    step: 65536,
};

const LATER: Setting = Setting {
    first: false,
    ref_cap: 7,
    ref_load: 10,
    step: 65536,
};

const LINK: Cell = Cell {
    tail: 0,
    head: 1,
    both: false,
    cap: 10,
};

const NEXT: Cell = Cell {
    tail: 1,
    head: 2,
    both: false,
    cap: 10,
};

const UNDIRECTED: Cell = Cell {
    tail: 0,
    head: 1,
    both: true,
    cap: 10,
};

const THREE: Cell = Cell {
    tail: 0,
    head: 1,
    both: false,
    cap: 3,
};

const SEVEN: Cell = Cell {
    tail: 0,
    head: 1,
    both: false,
    cap: 7,
};

const OF_FOUR: Commodity = Commodity {
    from: 0,
    to: 1,
    amount: 4,
};

const OVER_BOTH: Commodity = Commodity {
    from: 0,
    to: 2,
    amount: 4,
};

const OF_SIX: Commodity = Commodity {
    from: 0,
    to: 1,
    amount: 6,
};

const OF_TEN: Commodity = Commodity {
    from: 0,
    to: 1,
    amount: 10,
};

const THERE: Commodity = Commodity {
    from: 0,
    to: 1,
    amount: 5,
};

const BACK: Commodity = Commodity {
    from: 1,
    to: 0,
    amount: 5,
};

// One link of 10, and two demands over it.
fn one_source(alloc: Global) -> Result<Net, AllocError>
    ensures { IfOk result (λ n. n ≡ record { nodes = 2; cells = LINK ∷ []; commodities = OF_FOUR ∷ OF_SIX ∷ [] }) }
{
    let cells = vec![in alloc; LINK]?;
    let commodities = vec![in alloc; OF_FOUR, OF_SIX]?;
    Ok(Net::new(2, cells, commodities))
}

// One link of 10 in both directions, and 5 each way.
fn two_ways(alloc: Global) -> Result<Net, AllocError>
    ensures { IfOk result (λ n. n ≡ record
        { nodes = 2; cells = UNDIRECTED ∷ []; commodities = THERE ∷ BACK ∷ [] }) }
{
    let cells = vec![in alloc; UNDIRECTED]?;
    let commodities = vec![in alloc; THERE, BACK]?;
    Ok(Net::new(2, cells, commodities))
}

// Two links of 3 and 7, and a demand of 10.
fn two_links(alloc: Global) -> Result<Net, AllocError>
    ensures { IfOk result (λ n. n ≡ record { nodes = 2; cells = THREE ∷ SEVEN ∷ []; commodities = OF_TEN ∷ [] }) }
{
    let cells = vec![in alloc; THREE, SEVEN]?;
    let commodities = vec![in alloc; OF_TEN]?;
    Ok(Net::new(2, cells, commodities))
}

// Two links of 10 in a row, and a demand of 4 over both.
fn in_a_row(alloc: Global) -> Result<Net, AllocError>
    ensures { IfOk result (λ n. n ≡ record { nodes = 3; cells = LINK ∷ NEXT ∷ []; commodities = OVER_BOTH ∷ [] }) }
{
    let cells = vec![in alloc; LINK, NEXT]?;
    let commodities = vec![in alloc; OVER_BOTH]?;
    Ok(Net::new(3, cells, commodities))
}

// A link of 3 one way and one of 10 both ways, and 5 each way.
fn link_and_two_ways(alloc: Global) -> Result<Net, AllocError>
    ensures { IfOk result (λ n. n ≡ record
        { nodes = 2; cells = THREE ∷ UNDIRECTED ∷ []; commodities = THERE ∷ BACK ∷ [] }) }
{
    let cells = vec![in alloc; THREE, UNDIRECTED]?;
    let commodities = vec![in alloc; THERE, BACK]?;
    Ok(Net::new(2, cells, commodities))
}

#[tactic(auto, unfolding(flow_model::specs::Groups::group_in, flow_model::specs::Groups::group_count))]
#[test]
fn one_claim_routes_two_demands(rt: HostRuntime) -> Result<(), Fail> {
    let alloc = rt.alloc();
    let net = one_source(alloc)?;
    let groups = Groups::new(alloc, &net)?;
    let (loads, mut pass) = Loads::new(alloc, &net, &groups, FIRST, &[0], 1)?;
    let ticket = loads.claim(&mut pass);
    assert_eq!(rt; ticket, 0);
    let read = loads.read_cell(&mut pass, 0);
    assert_eq!(rt; read, 0);
    let is_least = is_least_path(alloc, &net, &FIRST, &[0], 0, &[0])?;
    assert!(rt; is_least);
    let is_least = is_least_path(alloc, &net, &FIRST, &[0], 1, &[0])?;
    assert!(rt; is_least);
    let word = loads.add_cell(&mut pass, 0, 4, 0);
    assert_eq!(rt; word, 0);
    let word = loads.add_cell(&mut pass, 1, 6, 0);
    assert_eq!(rt; word, 4);
    let ticket = loads.claim(&mut pass);
    assert_eq!(rt; ticket, 1);
    let mut into = [0];
    loads.close(pass, &mut into);
    assert_eq!(rt; into, [10]);
    Ok(())
}

#[tactic(auto, unfolding(flow_model::specs::Groups::group_in, flow_model::specs::Groups::group_count))]
#[test]
fn one_worker_takes_the_second_link(rt: HostRuntime) -> Result<(), Fail> {
    let alloc = rt.alloc();
    let net = two_links(alloc)?;
    let groups = Groups::new(alloc, &net)?;
    assert_eq!(rt; groups.count(), 1);
    let (loads, mut pass) = Loads::new(alloc, &net, &groups, LATER, &[0, 10], 1)?;
    let ticket = loads.claim(&mut pass);
    assert_eq!(rt; ticket, 0);
    let read = loads.read_cell(&mut pass, 0);
    assert_eq!(rt; read, 0);
    let read = loads.read_cell(&mut pass, 1);
    assert_eq!(rt; read, 10);
    let is_least = is_least_path(alloc, &net, &LATER, &[0, 10], 0, &[1])?;
    assert!(rt; is_least);
    let word = loads.add_cell(&mut pass, 0, 10, 1);
    assert_eq!(rt; word, 10);
    let ticket = loads.claim(&mut pass);
    assert_eq!(rt; ticket, 1);
    let mut into = [0, 0];
    loads.close(pass, &mut into);
    assert_eq!(rt; into, [0, 20]);
    Ok(())
}

#[tactic(auto, unfolding(flow_model::specs::Groups::group_in, flow_model::specs::Groups::group_count))]
#[test]
fn one_of_two_claims_routes_two_demands(rt: HostRuntime) -> Result<(), Fail> {
    let alloc = rt.alloc();
    let net = one_source(alloc)?;
    let groups = Groups::new(alloc, &net)?;
    let (loads, mut first) = Loads::new(alloc, &net, &groups, FIRST, &[0], 2)?;
    let ticket = loads.claim(&mut first);
    assert_eq!(rt; ticket, 0);
    let mut second = loads.split(&mut first);
    let ticket = loads.claim(&mut second);
    assert_eq!(rt; ticket, 1);
    let read = loads.read_cell(&mut first, 0);
    assert_eq!(rt; read, 0);
    let is_least = is_least_path(alloc, &net, &FIRST, &[0], 0, &[0])?;
    assert!(rt; is_least);
    let is_least = is_least_path(alloc, &net, &FIRST, &[0], 1, &[0])?;
    assert!(rt; is_least);
    let word = loads.add_cell(&mut first, 0, 4, 0);
    assert_eq!(rt; word, 0);
    let word = loads.add_cell(&mut first, 1, 6, 0);
    assert_eq!(rt; word, 4);
    let ticket = loads.claim(&mut first);
    assert_eq!(rt; ticket, 2);
    loads.join(&mut first, second);
    let mut into = [0];
    loads.close(first, &mut into);
    assert_eq!(rt; into, [10]);
    Ok(())
}

#[tactic(auto, unfolding(flow_model::specs::Groups::group_in, flow_model::specs::Groups::group_count))]
#[test]
fn one_of_two_workers_takes_the_second_link(rt: HostRuntime) -> Result<(), Fail> {
    let alloc = rt.alloc();
    let net = two_links(alloc)?;
    let groups = Groups::new(alloc, &net)?;
    let (loads, mut first) = Loads::new(alloc, &net, &groups, LATER, &[0, 10], 2)?;
    let second = loads.split(&mut first);
    let ticket = loads.claim(&mut first);
    assert_eq!(rt; ticket, 0);
    let read = loads.read_cell(&mut first, 0);
    assert_eq!(rt; read, 0);
    let read = loads.read_cell(&mut first, 1);
    assert_eq!(rt; read, 10);
    let is_least = is_least_path(alloc, &net, &LATER, &[0, 10], 0, &[1])?;
    assert!(rt; is_least);
    let word = loads.add_cell(&mut first, 0, 10, 1);
    assert_eq!(rt; word, 10);
    let ticket = loads.claim(&mut first);
    assert_eq!(rt; ticket, 1);
    loads.join(&mut first, second);
    let mut into = [0, 0];
    loads.close(first, &mut into);
    assert_eq!(rt; into, [0, 20]);
    Ok(())
}

#[tactic(auto, unfolding(flow_model::specs::Groups::group_in, flow_model::specs::Groups::group_count))]
#[test]
fn one_worker_reads_all_cells(rt: HostRuntime) -> Result<(), Fail> {
    let alloc = rt.alloc();
    let net = two_links(alloc)?;
    let groups = Groups::new(alloc, &net)?;
    let (loads, mut pass) = Loads::new(alloc, &net, &groups, LATER, &[0, 10], 1)?;
    let ticket = loads.claim(&mut pass);
    assert_eq!(rt; ticket, 0);
    let mut reads = [0, 0];
    loads.read_all(&mut pass, &mut reads);
    assert_eq!(rt; reads, [0, 10]);
    let word = loads.add_cell(&mut pass, 0, 10, 1);
    assert_eq!(rt; word, 10);
    let mut into = [0, 0];
    loads.close(pass, &mut into);
    assert_eq!(rt; into, [0, 20]);
    Ok(())
}

#[tactic(auto, unfolding(flow_model::specs::Groups::group_in, flow_model::specs::Groups::group_count))]
#[test]
fn the_second_worker_reads_what_the_first_added(rt: HostRuntime) -> Result<(), Fail> {
    let alloc = rt.alloc();
    let net = link_and_two_ways(alloc)?;
    let groups = Groups::new(alloc, &net)?;
    let (loads, mut first) = Loads::new(alloc, &net, &groups, LATER, &[0, 10], 2)?;
    let mut second = loads.split(&mut first);
    let ticket = loads.claim(&mut first);
    assert_eq!(rt; ticket, 0);
    let mut reads = [0, 0];
    loads.read_all(&mut first, &mut reads);
    assert_eq!(rt; reads, [0, 10]);
    let word = loads.add_cell(&mut first, 0, 5, 1);
    assert_eq!(rt; word, 10);
    let ticket = loads.claim(&mut second);
    assert_eq!(rt; ticket, 1);
    loads.read_all(&mut second, &mut reads);
    assert_eq!(rt; reads, [0, 15]);
    let word = loads.add_cell(&mut second, 1, 5, 1);
    assert_eq!(rt; word, 15);
    loads.join(&mut first, second);
    let mut into = [0, 0];
    loads.close(first, &mut into);
    assert_eq!(rt; into, [0, 20]);
    Ok(())
}

#[tactic(auto, unfolding(flow_model::specs::Groups::group_in, flow_model::specs::Groups::group_count))]
#[test]
fn one_worker_adds_along_a_path(rt: HostRuntime) -> Result<(), Fail> {
    let alloc = rt.alloc();
    let net = in_a_row(alloc)?;
    let groups = Groups::new(alloc, &net)?;
    let (loads, mut pass) = Loads::new(alloc, &net, &groups, LATER, &[2, 10], 1)?;
    let ticket = loads.claim(&mut pass);
    assert_eq!(rt; ticket, 0);
    let mut reads = [0, 0];
    loads.read_all(&mut pass, &mut reads);
    assert_eq!(rt; reads, [2, 10]);
    loads.add_path(&mut pass, 0, 4, &[0, 1]);
    let mut into = [0, 0];
    loads.close(pass, &mut into);
    assert_eq!(rt; into, [6, 14]);
    Ok(())
}

#[tactic(auto, unfolding(flow_model::specs::Groups::group_in, flow_model::specs::Groups::group_count))]
#[test]
fn one_of_two_workers_adds_along_a_path(rt: HostRuntime) -> Result<(), Fail> {
    let alloc = rt.alloc();
    let net = in_a_row(alloc)?;
    let groups = Groups::new(alloc, &net)?;
    let (loads, mut first) = Loads::new(alloc, &net, &groups, LATER, &[2, 10], 2)?;
    let second = loads.split(&mut first);
    let ticket = loads.claim(&mut first);
    assert_eq!(rt; ticket, 0);
    let mut reads = [0, 0];
    loads.read_all(&mut first, &mut reads);
    assert_eq!(rt; reads, [2, 10]);
    loads.add_path(&mut first, 0, 4, &[0, 1]);
    loads.join(&mut first, second);
    let mut into = [0, 0];
    loads.close(first, &mut into);
    assert_eq!(rt; into, [6, 14]);
    Ok(())
}

#[tactic(auto, unfolding(flow_model::specs::Groups::group_in, flow_model::specs::Groups::group_count))]
#[test]
fn two_workers_add_to_one_cell(rt: HostRuntime) -> Result<(), Fail> {
    let alloc = rt.alloc();
    let net = two_ways(alloc)?;
    let groups = Groups::new(alloc, &net)?;
    let (loads, mut first) = Loads::new(alloc, &net, &groups, FIRST, &[0], 2)?;
    let ticket = loads.claim(&mut first);
    assert_eq!(rt; ticket, 0);
    let mut second = loads.split(&mut first);
    let ticket = loads.claim(&mut second);
    assert_eq!(rt; ticket, 1);
    let read = loads.read_cell(&mut first, 0);
    assert_eq!(rt; read, 0);
    let read = loads.read_cell(&mut second, 0);
    assert_eq!(rt; read, 0);
    let is_least = is_least_path(alloc, &net, &FIRST, &[0], 0, &[0])?;
    assert!(rt; is_least);
    let is_least = is_least_path(alloc, &net, &FIRST, &[0], 1, &[0])?;
    assert!(rt; is_least);
    let word = loads.add_cell(&mut first, 0, 5, 0);
    assert_eq!(rt; word, 0);
    let word = loads.add_cell(&mut second, 1, 5, 0);
    assert_eq!(rt; word, 5);
    let ticket = loads.claim(&mut first);
    assert_eq!(rt; ticket, 2);
    let ticket = loads.claim(&mut second);
    assert_eq!(rt; ticket, 3);
    loads.join(&mut first, second);
    let mut into = [0];
    loads.close(first, &mut into);
    assert_eq!(rt; into, [10]);
    Ok(())
}

// Claims once, and loads the one cell by the claimed group's demand.
#[tactic(auto, unfolding(flow_model::specs::Groups::group_in, flow_model::specs::Groups::group_count))]
fn claim_once(loads: &Loads, pass: Pass, worker: u16) -> Pass
    requires of { IsPassOf loads.now pass }
    requires fresh { pass.view.hands ≡ hand worker idle ∷ [] }
    requires net { loads.now.terms.net ≡ record
        { nodes = 2; cells = UNDIRECTED ∷ []; commodities = THERE ∷ BACK ∷ [] } }
    ensures of { IsPassOf loads.now result }
    ensures splits { (result.view.left ≡ pass.view.left) × (result.view.made ≡ pass.view.made) }
    ensures alone { length result.view.hands ≡ 1 }
{
    let mut pass = pass;
    match loads.claim(&mut pass) {
        0 => {
            loads.read_cell(&mut pass, 0);
            loads.add_cell(&mut pass, 0, 5, 0);
        }
        1 => {
            loads.read_cell(&mut pass, 0);
            loads.add_cell(&mut pass, 1, 5, 0);
        }
        _ => {}
    }
    pass
}

#[test]
fn two_threads_share_the_words(rt: HostRuntime) -> Result<(), Fail> {
    let alloc = rt.alloc();
    let net = two_ways(alloc)?;
    let groups = Groups::new(alloc, &net)?;
    let (loads, mut first) = Loads::new(alloc, &net, &groups, FIRST, &[0], 2)?;
    let second = loads.split(&mut first);
    let (mut first, second) = join(
        &rt,
        || -> Pass
            requires of { IsPassOf loads first }
            requires fresh { first.view.hands ≡ hand 0 idle ∷ [] }
            requires net { loads.terms.net ≡ record
                { nodes = 2; cells = UNDIRECTED ∷ []; commodities = THERE ∷ BACK ∷ [] } }
            ensures of { IsPassOf loads result }
            ensures splits { (result.view.left ≡ first.view.left) × (result.view.made ≡ first.view.made) }
            ensures alone { length result.view.hands ≡ 1 }
        { claim_once(&loads, first, 0) },
        || -> Pass
            requires of { IsPassOf loads second }
            requires fresh { second.view.hands ≡ hand 1 idle ∷ [] }
            requires net { loads.terms.net ≡ record
                { nodes = 2; cells = UNDIRECTED ∷ []; commodities = THERE ∷ BACK ∷ [] } }
            ensures of { IsPassOf loads result }
            ensures splits { (result.view.left ≡ second.view.left) × (result.view.made ≡ second.view.made) }
            ensures alone { length result.view.hands ≡ 1 }
        { claim_once(&loads, second, 1) },
    );
    loads.join(&mut first, second);
    let mut into = [0];
    loads.close(first, &mut into);
    assert_eq!(rt; into, [10]);
    Ok(())
}
