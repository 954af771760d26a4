//! Triangles of links that go both ways, with a demand from the first node to the second.

ghost use Rattle.std.specs.Prelude.{◌≡◌, ◌≤◌, true, IfOk, MatchOption, length};
ghost use Rattle.mcf_limits.specs.declared.TheConstants.{MAX_HOPS, MAX_STEP, MAX_UNITS};

use flow_model::{Cell, Commodity, Net};
use hop_check::HopProof;
use hop_solve::solve_hops;
use route_tally::RunOptions;
use std::alloc::{AllocError, Global};
use std::test::Fail;

// A link that goes both ways.
fn link(tail: u16, head: u16, cap: u64) -> Cell
    ensures { result ≡ record { tail = tail; head = head; both = true; cap = cap } }
{
    Cell {
        tail,
        head,
        both: true,
        cap,
    }
}

// The first link has capacity 2, both others this one.
fn triangle(alloc: Global, others: u64) -> Result<Net, AllocError>
    requires { others ≤ MAX_UNITS }
    ensures { IfOk result (λ net. length net.commodities ≡ 1) }
{
    let commodity = Commodity {
        from: 0,
        to: 1,
        amount: 2,
    };
    let cells = vec![in alloc; link(0, 1, 2), link(0, 2, others), link(2, 1, others)]?;
    Ok(Net::new(3, cells, vec![in alloc; commodity]?))
}

// What is solved of a triangle, where a path may have `limit` links.
fn solved(alloc: Global, others: u64, limit: Option<u8>, step: u32) -> Result<HopProof, AllocError>
    requires others { others ≤ MAX_UNITS }
    requires limit { MatchOption limit (Unit {0}) (λ n. n ≤ MAX_HOPS) }
    requires some_step { 1 ≤ step }
    requires step { step ≤ MAX_STEP }
{
    let net = triangle(alloc, others)?;
    let options = RunOptions {
        gap: 50000,
        phases: 1000,
        step,
    };
    solve_hops(alloc, &net, &[limit], &options)
}

// The length of each cell.
fn lengths(alloc: Global, h: &HopProof) -> Result<Vec<u64>, AllocError> {
    let mut lengths = Vec::new(alloc);
    for i in 0..h.proof.dual.lengths() {
        lengths.push(h.proof.dual.length(i).1)?;
    }
    Ok(lengths)
}

#[test]
fn the_limit_keeps_to_the_first_link(rt: HostRuntime) -> Result<(), Fail> {
    let alloc = rt.alloc();
    let h = solved(alloc, 10, Some(1), 1048576)?;
    assert!(rt; h.proof.closed);
    assert_eq!(rt; h.proof.routing.phases, 1);
    assert_eq!(rt;
        (h.proof.routing.scale_cap, h.proof.routing.scale_load),
        (2, 2)
    );
    assert_eq!(rt;
        (h.proof.upper.num, h.proof.upper.den),
        (9007474132647932, 9007199254740992)
    );
    assert_eq!(rt; (h.proof.upper.whole, h.proof.upper.micro), (1, 31));
    assert_eq!(rt;
        lengths(alloc, &h)?.as_slice(),
        [4503599627370496, 13743895347, 13743895347].as_slice()
    );
    assert_eq!(rt; h.proof.routing.paths.rows(), 1);
    assert_eq!(rt; h.proof.dual.rows(), 0);
    assert_eq!(rt; h.layers.rows(), 2);
    Ok(())
}

#[test]
fn no_link_is_a_cut(rt: HostRuntime) -> Result<(), Fail> {
    let alloc = rt.alloc();
    let h = solved(alloc, 10, Some(0), 1048576)?;
    assert!(rt; h.proof.closed);
    assert_eq!(rt; h.proof.routing.phases, 0);
    assert_eq!(rt; (h.proof.upper.num, h.proof.upper.den), (0, 2));
    assert_eq!(rt; h.layers.rows(), 1);
    Ok(())
}

#[test]
fn without_a_limit(rt: HostRuntime) -> Result<(), Fail> {
    let alloc = rt.alloc();
    let h = solved(alloc, 10, None, 8192)?;
    assert!(rt; h.proof.closed);
    assert_eq!(rt; h.layers.rows(), 0);
    assert_eq!(rt; h.proof.dual.rows(), 1);
    Ok(())
}

// All links are alike. The bound after each phase is 3, by one dual where the first link carried once more than the others,
// and by another where all carried alike.
#[test]
fn the_first_of_equal_bounds(rt: HostRuntime) -> Result<(), Fail> {
    let alloc = rt.alloc();
    let h = solved(alloc, 2, Some(2), 131072)?;
    assert!(rt; !h.proof.closed);
    assert_eq!(rt; h.proof.routing.phases, 1000);
    assert_eq!(rt;
        (h.proof.upper.num, h.proof.upper.den),
        (13510798882111488, 4503599627370496)
    );
    assert_eq!(rt;
        lengths(alloc, &h)?.as_slice(),
        [4503599627370496, 1125899906842624, 1125899906842624].as_slice()
    );
    assert_eq!(rt; h.proof.routing.paths.rows(), 2);
    Ok(())
}
