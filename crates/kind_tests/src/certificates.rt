use crate::triangle::{Case, Walk, net_of, proof_of};
use cert_check::{Fault, Verdict};
use hop_check::check_hops;
use mcf_limits::MAX_LENGTH;
use std::test::Fail;

// A certificate, and the condition that fails first.
type Wanted = (Case, Option<Fault>);

const CASES: &[Wanted] = &[
    (
        Case {
            walk: Walk::Direct,
            rows: 1,
            far: 4503599627370496,
        },
        None,
    ),
    (
        Case {
            walk: Walk::Around,
            rows: 1,
            far: 4503599627370496,
        },
        Some(Fault::C1),
    ),
    (
        Case {
            walk: Walk::Direct,
            rows: 0,
            far: 4503599627370496,
        },
        Some(Fault::C6),
    ),
    (
        Case {
            walk: Walk::Direct,
            rows: 2,
            far: 4503599627370496,
        },
        Some(Fault::C6),
    ),
    (
        Case {
            walk: Walk::Direct,
            rows: 1,
            far: 4503599627370497,
        },
        Some(Fault::C7),
    ),
    (
        Case {
            walk: Walk::Direct,
            rows: 1,
            far: 0,
        },
        Some(Fault::C8),
    ),
    (
        Case {
            walk: Walk::Direct,
            rows: 1,
            far: 4503599627370495,
        },
        Some(Fault::C9),
    ),
];

fn fault_of(verdict: Verdict) -> Option<Fault> {
    match verdict {
        Verdict::Valid { .. } => None,
        Verdict::Invalid(fault) => Some(fault),
    }
}

#[test]
fn the_first_condition_that_fails(rt: HostRuntime) -> Result<(), Fail> {
    let net = net_of(rt.alloc())?;
    for (case, want) in CASES {
        assert!(rt; case.far <= MAX_LENGTH);
        let proof = proof_of(rt.alloc(), case)?;
        let verdict = check_hops(rt.alloc(), &net, &[Some(1)], &proof)?;
        assert_eq!(rt; fault_of(verdict), *want);
    }
    Ok(())
}
