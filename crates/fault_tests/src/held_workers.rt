//! Runs with two workers, of which a gate holds one: the other goes on meanwhile, over the same loads.

use base_tests::{AMPLE, TWO_LINKS, answer_through};
use mcf_base::Gate;
use std::process::Abort;
use std::sync::atomic::{AtomicBool, AtomicU64, Ordering};
use std::test::Fail;
use std::thread;

// A link of 10, and a demand of 5 each way.
const LINK_BOTH_WAYS: &[u8] =
    b"?SNDlib native format; type: network; version: 1.0\nNODES (\n  A\n  B\n)\nLINKS (\n  L1 ( A B ) 10 0 0 0 ( )\n)\nDEMANDS (\n  D1 ( A B ) 1 5 UNLIMITED\n  D2 ( B A ) 1 5 UNLIMITED\n)\n";

// Links of 3 and 7 side by side, and a demand of 5 each way.
const TWO_LINKS_BOTH_WAYS: &[u8] =
    b"?SNDlib native format; type: network; version: 1.0\nNODES (\n  A\n  B\n)\nLINKS (\n  L1 ( A B ) 3 0 0 0 ( )\n  L2 ( A B ) 7 0 0 0 ( )\n)\nDEMANDS (\n  D1 ( A B ) 1 5 UNLIMITED\n  D2 ( B A ) 1 5 UNLIMITED\n)\n";

// Turns that a held worker waits at most.
const TURNS: u32 = 10_000_000;

// Waits until the flag is set.
fn hold(flag: &AtomicBool) {
    for _ in 0..TURNS {
        if flag.load(Ordering::SeqCst) {
            return;
        }
        thread::yield_now();
    }
}

// Holds the worker of one call until a worker of another number has called with a ticket that is not below the least.
#[derive(Drop)]
struct Meeting {
    calls: AtomicU64,
    held_call: u64,
    least_ticket: u64,
    held: AtomicU64,
    met: AtomicBool,
}

impl Meeting {
    fn new(held_call: u64, least_ticket: u64) -> Self {
        Meeting {
            calls: AtomicU64::new(0),
            held_call,
            least_ticket,
            held: AtomicU64::new(u64::MAX),
            met: AtomicBool::new(false),
        }
    }

    // The worker of the call that is held, once it is known.
    fn held_worker(&self) -> u64 {
        for _ in 0..TURNS {
            let worker = self.held.load(Ordering::SeqCst);
            if worker != u64::MAX {
                return worker;
            }
            thread::yield_now();
        }
        u64::MAX
    }
}

impl Gate for Meeting {
    fn claimed(&self, worker: u16, ticket: u64) {
        let call = self.calls.fetch_add(1, Ordering::SeqCst);
        let worker = u64::from(worker);
        if call == self.held_call {
            self.held.store(worker, Ordering::SeqCst);
            hold(&self.met);
        }
        if call > self.held_call && ticket >= self.least_ticket && self.held_worker() != worker {
            self.met.store(true, Ordering::SeqCst);
        }
    }
}

// A link that both demands share, one each way.
#[test]
fn two_workers_overlap(rt: HostRuntime) -> Result<(), Fail> {
    let gate = Meeting::new(0, 0);
    let words = ["solve", "net", "--workers", "2"];
    let given = answer_through(
        &rt,
        rt.alloc(),
        &words,
        &[("net", LINK_BOTH_WAYS)],
        AMPLE,
        &gate,
    )?;
    assert!(rt; gate.met.load(Ordering::SeqCst));
    assert!(rt; given.begins(0, b"mcf-certificate 2\nverdict closed\n"));
    Ok(())
}

// The held worker reads the loads of the other one, and takes the other link.
#[test]
fn a_held_worker_reads_the_shared_loads(rt: HostRuntime) -> Result<(), Fail> {
    let gate = Meeting::new(4, 2);
    let words = [
        "solve",
        "net",
        "--gap",
        "0",
        "--phases",
        "2",
        "--workers",
        "2",
        "--step",
        "65536",
    ];
    let files = [("net", TWO_LINKS_BOTH_WAYS)];
    let given = answer_through(&rt, rt.alloc(), &words, &files, AMPLE, &gate)?;
    assert!(rt; gate.met.load(Ordering::SeqCst));
    assert!(rt;
        given.begins(
            1,
            b"mcf-certificate 2\nverdict open\nlinks undirected\nmodules largest\nnet nodes 2 cells 2 commodities 2 decimals 0 skipped 0 left 0 hops 0\ngap 0.000000\nphases 2\nscale 7 15\nlower 14/15 0.933333\n"
        )
    );
    Ok(())
}

// Two matrices of one demand each.
const TWO_MATRICES: &[u8] = b"m1 ( D1 ( A B ) 1 10 UNLIMITED )\nm2 ( D1 ( A B ) 1 5 UNLIMITED )\n";

// Holds the first call until a second one has come, whichever workers call.
#[derive(Drop)]
struct Pair {
    calls: AtomicU64,
    over: AtomicBool,
    met: AtomicBool,
}

impl Pair {
    fn new() -> Self {
        Pair {
            calls: AtomicU64::new(0),
            over: AtomicBool::new(false),
            met: AtomicBool::new(false),
        }
    }
}

impl Gate for Pair {
    fn claimed(&self, _worker: u16, _ticket: u64) {
        if self.calls.fetch_add(1, Ordering::SeqCst) == 0 {
            hold(&self.met);
            self.over.store(true, Ordering::SeqCst);
        } else if !self.over.load(Ordering::SeqCst) {
            self.met.store(true, Ordering::SeqCst);
        }
    }
}

// Two links are solved at the same time: the first claim of all is held until the solve of the other link has claimed, which
// no call of the held one can do in its place.
#[test]
fn two_solves_of_a_sweep_meet(rt: HostRuntime) -> Result<(), Fail> {
    let gate = Pair::new();
    let words = ["sweepsolve", "net", "--links", "directed"];
    let given = answer_through(&rt, rt.alloc(), &words, &[("net", TWO_LINKS)], AMPLE, &gate)?;
    assert!(rt; gate.met.load(Ordering::SeqCst));
    assert!(rt; given.begins(0, b"sweep L1 closed phases 1 lower 7/10 0.700000 "));
    Ok(())
}

// Two matrices are solved at the same time, likewise.
#[test]
fn two_solves_of_a_batch_meet(rt: HostRuntime) -> Result<(), Fail> {
    let gate = Pair::new();
    let words = ["batch", "net", "list", "--links", "directed"];
    let files = [("net", TWO_LINKS), ("list", TWO_MATRICES)];
    let given = answer_through(&rt, rt.alloc(), &words, &files, AMPLE, &gate)?;
    assert!(rt; gate.met.load(Ordering::SeqCst));
    assert!(rt; given.begins(0, b"matrix m1\nmcf-certificate 2\nverdict closed\n"));
    Ok(())
}
