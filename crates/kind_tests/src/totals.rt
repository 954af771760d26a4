//! A link of 10 with a demand of 4 over it, and a certificate of the total 4.

ghost use Rattle.std.specs.Prelude.{◌≡◌, ◌≤◌, [], ◌∷◌, false, IfOk};
ghost use Rattle.mcf_limits.specs.declared.TheConstants.{MAX_GAP, MAX_LENGTH, MAX_PHASES, MAX_STEP};
ghost use Rattle.flow_model.specs.Network.{Network};
ghost use Rattle.throughput.specs.Conditions.{IsPartProofOf};

use cert_check::{Fault, Verdict};
use flow_model::{Cell, Commodity, Net};
use flow_paths::{Dual, PathStore, Printed, Routing};
use route_tally::RunOptions;
use std::alloc::{AllocError, Global};
use std::test::Fail;
use throughput::{PartDual, PartProof, check_part, solve_parts};

// The bound, printed.
const UPPER: Printed = Printed {
    num: 20266198323167224,
    den: 4728779608739020,
    whole: 4,
    micro: 285715,
};

fn network(alloc: Global) -> Result<Net, AllocError>
    ensures { IfOk result (λ net. net ≡ record {
      nodes = 2;
      cells = record { tail = 0; head = 1; both = false; cap = 10 } ∷ [];
      commodities = record { from = 0; to = 1; amount = 4 } ∷ [];
    }) }
{
    let cell = Cell {
        tail: 0,
        head: 1,
        both: false,
        cap: 10,
    };
    let commodity = Commodity {
        from: 0,
        to: 1,
        amount: 4,
    };
    Ok(Net::new(2, vec![in alloc; cell]?, vec![in alloc; commodity]?))
}

// A certificate of this weight and gap, with this threshold.
fn proof(
    alloc: Global,
    weight: u64,
    threshold: u64,
    gap: u64,
    closed: bool,
) -> Result<PartProof, AllocError>
    requires weight { weight ≤ MAX_LENGTH }
    requires threshold { threshold ≤ MAX_LENGTH }
    requires gap { gap ≤ MAX_GAP }
    ensures { IfOk result (λ p. (net : Network) → net ≡ record {
      nodes = 2;
      cells = record { tail = 0; head = 1; both = false; cap = 10 } ∷ [];
      commodities = record { from = 0; to = 1; amount = 4 } ∷ [];
    } → IsPartProofOf net p) }
{
    let mut paths = PathStore::new(alloc);
    paths.push(0, &[0], weight)?;
    let mut dual = Dual::new(alloc);
    dual.push_length(0, 225179981368524)?;
    dual.push_row(alloc, 0, &[0, 225179981368524])?;
    Ok(PartProof {
        closed,
        gap,
        routing: Routing {
            phases: 1,
            scale_cap: 4,
            scale_load: 4,
            paths,
        },
        lower: Printed {
            num: 16,
            den: 4,
            whole: 4,
            micro: 0,
        },
        upper: UPPER,
        bound: PartDual { threshold, dual },
    })
}

// The condition that fails first, if one does.
fn fault(verdict: Verdict) -> Option<Fault> {
    match verdict {
        Verdict::Valid { .. } => None,
        Verdict::Invalid(fault) => Some(fault),
    }
}

// The condition that fails first of such a certificate, if one does.
fn judged(
    alloc: Global,
    weight: u64,
    threshold: u64,
    gap: u64,
    closed: bool,
) -> Result<Option<Fault>, AllocError>
    requires weight { weight ≤ MAX_LENGTH }
    requires threshold { threshold ≤ MAX_LENGTH }
    requires gap { gap ≤ MAX_GAP }
{
    let net = network(alloc)?;
    let p = proof(alloc, weight, threshold, gap, closed)?;
    let verdict = check_part(alloc, &net, &p)?;
    Ok(fault(verdict))
}

const RIGHT: u64 = 4728779608739020;

#[test]
fn certificates_of_one_link(rt: HostRuntime) -> Result<(), Fail> {
    let alloc = rt.alloc();
    assert_eq!(rt; judged(alloc, 4, RIGHT, 50000, false)?, None);
    assert_eq!(rt; judged(alloc, 4, RIGHT, 100000, true)?, None);
    assert_eq!(rt; judged(alloc, 4, RIGHT, 50000, true)?, Some(Fault::C10));
    assert_eq!(rt; judged(alloc, 4, 0, 50000, false)?, Some(Fault::C8));
    assert_eq!(rt; judged(alloc, 5, RIGHT, 50000, false)?, Some(Fault::C2));
    assert_eq!(rt; judged(alloc, 3, RIGHT, 50000, false)?, Some(Fault::C9));
    Ok(())
}

// The certificate of a run of at most `phases` phases.
fn solved(alloc: Global, gap: u64, phases: u32, step: u32) -> Result<PartProof, AllocError>
    requires gap { gap ≤ MAX_GAP }
    requires phases { (1 ≤ phases) × (phases ≤ MAX_PHASES) }
    requires step { (1 ≤ step) × (step ≤ MAX_STEP) }
{
    let net = network(alloc)?;
    let options = RunOptions { gap, phases, step };
    solve_parts(alloc, &net, &options)
}

#[test]
fn runs_over_one_link(rt: HostRuntime) -> Result<(), Fail> {
    let alloc = rt.alloc();
    let open = solved(alloc, 50000, 1, 327680)?;
    assert_eq!(rt; open.closed, false);
    assert_eq!(rt; open.lower.num, 16);
    assert_eq!(rt; open.upper, UPPER);
    assert_eq!(rt; open.bound.threshold, RIGHT);
    let closed = solved(alloc, 50000, 1000, 8192)?;
    assert_eq!(rt; closed.closed, true);
    assert_eq!(rt; closed.routing.phases, 48);
    assert_eq!(rt; closed.lower.num, 768);
    assert_eq!(rt; closed.lower.den, 192);
    assert_eq!(rt; closed.upper.num, 19500027361689594);
    assert_eq!(rt; closed.bound.threshold, 4652162512591257);
    Ok(())
}
