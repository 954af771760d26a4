use crate::small::{Case, Paths, Rows, is_case, net_of, proof_of};
use cert_check::{Fault, RouteEnd, Verdict, check, check_routing};
use flow_paths::Printed;
use std::test::Fail;

// A certificate, and the condition that fails first.
type Wanted = (Case, Option<Fault>);

// A capacity of 10, and a demand of 4 that is carried once: closed at 5/2.
const RIGHT: Case = Case {
    cap: 10,
    both: false,
    amount: 4,
    phases: 1,
    scale_cap: 10,
    scale_load: 4,
    paths: Paths::Once,
    weight: 4,
    length_rows: 1,
    size: 4503599627370496,
    rows: Rows::Source,
    near: 0,
    far: 4503599627370496,
    lower: Printed {
        num: 10,
        den: 4,
        whole: 2,
        micro: 500000,
    },
    upper: Printed {
        num: 45035996273704960,
        den: 18014398509481984,
        whole: 2,
        micro: 500000,
    },
    gap: 50000,
    closed: true,
};

// A link without capacity, and a demand of 5: closed at 0.
const CUT: Case = Case {
    cap: 0,
    both: false,
    amount: 5,
    phases: 0,
    scale_cap: 0,
    scale_load: 1,
    paths: Paths::Missing,
    weight: 0,
    length_rows: 1,
    size: 1,
    rows: Rows::Source,
    near: 0,
    far: 1,
    lower: Printed {
        num: 0,
        den: 1,
        whole: 0,
        micro: 0,
    },
    upper: Printed {
        num: 0,
        den: 5,
        whole: 0,
        micro: 0,
    },
    gap: 50000,
    closed: true,
};

// A capacity and a demand at the limit, and a length at the limit.
const GREAT: Case = Case {
    cap: 17592186044416,
    both: true,
    amount: 17592186044416,
    phases: 1,
    scale_cap: 17592186044416,
    scale_load: 17592186044416,
    paths: Paths::Once,
    weight: 17592186044416,
    length_rows: 1,
    size: 4611686018427387904,
    rows: Rows::Source,
    near: 0,
    far: 4611686018427387904,
    lower: Printed {
        num: 17592186044416,
        den: 17592186044416,
        whole: 1,
        micro: 0,
    },
    upper: Printed {
        num: 81129638414606681695789005144064,
        den: 81129638414606681695789005144064,
        whole: 1,
        micro: 0,
    },
    gap: 0,
    closed: true,
};

// A capacity of 7, and a demand of 10 that is carried once: 7/10, and a bound a little above 21/20, which stands one and a half times and a little as high. Of the six decimals it would be a millionth more.
const NEAR: Case = Case {
    cap: 7,
    both: false,
    amount: 10,
    phases: 1,
    scale_cap: 7,
    scale_load: 10,
    paths: Paths::Once,
    weight: 10,
    length_rows: 1,
    size: 3000000000000001,
    rows: Rows::Source,
    near: 0,
    far: 2000000000000000,
    lower: Printed {
        num: 7,
        den: 10,
        whole: 0,
        micro: 700000,
    },
    upper: Printed {
        num: 21000000000000007,
        den: 20000000000000000,
        whole: 1,
        micro: 50001,
    },
    gap: 500001,
    closed: true,
};

// No scale.
const UNSCALED: Case = Case {
    scale_cap: 0,
    scale_load: 0,
    ..RIGHT
};

// A weight over the demand.
const HEAVY: Case = Case { weight: 5, ..RIGHT };

// A scale over what the capacity carries.
const OVER: Case = Case {
    scale_load: 3,
    ..RIGHT
};

// A path that goes over the link twice.
const TWICE: Case = Case {
    paths: Paths::Twice,
    ..RIGHT
};

// No distance.
const NEAREST: Case = Case { far: 0, ..RIGHT };

// A fraction that is printed wrong.
const MISPRINTED: Case = Case {
    lower: Printed {
        num: 10,
        den: 4,
        whole: 2,
        micro: 500001,
    },
    ..RIGHT
};

// A path that goes over the link, back, and over it again, and a scale with its load.
const THERE_AND_BACK: Case = Case {
    both: true,
    paths: Paths::ThereAndBack,
    scale_load: 12,
    ..RIGHT
};

// One thing wrong.
const ONE_WRONG: &[Wanted] = &[
    (RIGHT, None),
    (CUT, None),
    (GREAT, None),
    (NEAR, None),
    (
        Case {
            gap: 500000,
            closed: false,
            ..NEAR
        },
        None,
    ),
    (
        Case {
            closed: false,
            ..NEAR
        },
        Some(Fault::C10),
    ),
    (
        Case {
            gap: 500000,
            ..NEAR
        },
        Some(Fault::C10),
    ),
    (Case { size: 0, ..CUT }, Some(Fault::C7)),
    (TWICE, Some(Fault::C1)),
    (HEAVY, Some(Fault::C2)),
    (OVER, Some(Fault::C3)),
    (
        Case {
            scale_load: 0,
            ..CUT
        },
        Some(Fault::C4),
    ),
    (UNSCALED, Some(Fault::C4)),
    (
        Case {
            length_rows: 0,
            ..RIGHT
        },
        Some(Fault::C5),
    ),
    (
        Case {
            length_rows: 2,
            ..RIGHT
        },
        Some(Fault::C5),
    ),
    (
        Case {
            rows: Rows::Missing,
            ..RIGHT
        },
        Some(Fault::C6),
    ),
    (
        Case {
            rows: Rows::SourceTwice,
            ..RIGHT
        },
        Some(Fault::C6),
    ),
    (
        Case {
            rows: Rows::BothEnds,
            ..RIGHT
        },
        Some(Fault::C6),
    ),
    (
        Case {
            size: 4503599627370495,
            ..RIGHT
        },
        Some(Fault::C7),
    ),
    (NEAREST, Some(Fault::C8)),
    (MISPRINTED, Some(Fault::C9)),
    (
        Case {
            closed: false,
            ..RIGHT
        },
        Some(Fault::C10),
    ),
];

// Two conditions fail: the first is told, whichever row has it.
const TWO_WRONG: &[Wanted] = &[
    (Case { weight: 5, ..TWICE }, Some(Fault::C1)),
    (
        Case {
            paths: Paths::TwiceLater,
            ..HEAVY
        },
        Some(Fault::C1),
    ),
    (Case { weight: 5, ..OVER }, Some(Fault::C2)),
    (
        Case {
            scale_load: 0,
            ..RIGHT
        },
        Some(Fault::C3),
    ),
    (
        Case {
            length_rows: 0,
            ..UNSCALED
        },
        Some(Fault::C4),
    ),
    (
        Case {
            length_rows: 2,
            rows: Rows::Missing,
            ..RIGHT
        },
        Some(Fault::C5),
    ),
    (
        Case {
            rows: Rows::SourceTwice,
            size: 1,
            ..RIGHT
        },
        Some(Fault::C6),
    ),
    (
        Case {
            both: true,
            near: 4611686018427387904,
            ..NEAREST
        },
        Some(Fault::C7),
    ),
    (
        Case {
            closed: false,
            ..NEAREST
        },
        Some(Fault::C8),
    ),
    (
        Case {
            closed: false,
            ..MISPRINTED
        },
        Some(Fault::C9),
    ),
];

// A routing's fraction, or the first of its four conditions that fails.
const ROUTINGS: &[Wanted] = &[
    (RIGHT, None),
    (HEAVY, Some(Fault::C2)),
    (OVER, Some(Fault::C3)),
    (UNSCALED, Some(Fault::C4)),
    (THERE_AND_BACK, None),
    (
        Case {
            scale_load: 11,
            ..THERE_AND_BACK
        },
        Some(Fault::C3),
    ),
    (
        Case {
            both: false,
            ..THERE_AND_BACK
        },
        Some(Fault::C1),
    ),
];

fn fault_of(verdict: Verdict) -> Option<Fault> {
    match verdict {
        Verdict::Valid { .. } => None,
        Verdict::Invalid(fault) => Some(fault),
    }
}

#[test]
fn the_first_condition_that_fails(rt: HostRuntime) -> Result<(), Fail> {
    for (case, want) in ONE_WRONG.iter().chain(TWO_WRONG) {
        assert!(rt; is_case(case));
        let net = net_of(rt.alloc(), case)?;
        let proof = proof_of(rt.alloc(), case)?;
        let verdict = check(rt.alloc(), &net, &proof)?;
        assert_eq!(rt; fault_of(verdict), *want);
    }
    Ok(())
}

#[test]
fn the_fraction_of_a_routing(rt: HostRuntime) -> Result<(), Fail> {
    for (case, want) in ROUTINGS {
        assert!(rt; is_case(case));
        let net = net_of(rt.alloc(), case)?;
        let proof = proof_of(rt.alloc(), case)?;
        match check_routing(rt.alloc(), &net, &proof.routing) {
            Ok(fraction) => {
                assert_eq!(rt; *want, None);
                assert_eq!(rt;
                    (fraction.num(), fraction.den()),
                    (10, case.scale_load as u128)
                );
            }
            Err(RouteEnd::Invalid(fault)) => assert_eq!(rt; Some(fault), *want),
            Err(RouteEnd::Memory) => assert!(rt; false),
        }
    }
    Ok(())
}

#[test]
fn the_fractions_of_a_valid_certificate(rt: HostRuntime) -> Result<(), Fail> {
    let case = &RIGHT;
    assert!(rt; is_case(case));
    let net = net_of(rt.alloc(), case)?;
    let proof = proof_of(rt.alloc(), case)?;
    if let Verdict::Valid {
        lower,
        upper,
        closed,
    } = check(rt.alloc(), &net, &proof)?
    {
        assert_eq!(rt; (lower.num(), lower.den()), (10, 4));
        assert_eq!(rt;
            (upper.num(), upper.den()),
            (45035996273704960, 18014398509481984)
        );
        assert!(rt; closed);
        return Ok(());
    }
    assert!(rt; false);
    Ok(())
}
