use gap_fraction::{Frac, MAX_PART};
use std::cmp::Ordering;

#[test]
fn equal_values_of_unequal_parts(rt: HostRuntime) {
    let upper = Frac::new(45035996273704960, 18014398509481984);
    assert_eq!(rt; upper.cmp(&Frac::new(10, 4)), Ordering::Equal);
}

#[test]
fn neighbours_at_the_limit(rt: HostRuntime) {
    let most = MAX_PART;
    let above = Frac::new(most - 1, most - 2);
    let below = Frac::new(most, most - 1);
    assert_eq!(rt; below.cmp(&above), Ordering::Less);
    assert_eq!(rt; above.cmp(&below), Ordering::Greater);
    assert_eq!(rt;
        Frac::new(most, most).cmp(&Frac::new(1, 1)),
        Ordering::Equal
    );
    assert_eq!(rt; Frac::new(1, most).cmp(&Frac::new(0, 1)), Ordering::Greater);
}

#[test]
fn within_a_gap_of_three_parts(rt: HostRuntime) {
    let lower = Frac::new(7, 10);
    let upper = Frac::new(20266198323167226, 19301141260159260);
    for (gap, want) in [(500000, false), (500001, true)] {
        assert_eq!(rt; Frac::within(&lower, &upper, gap), want, "at {gap}");
    }
    assert!(rt; Frac::within(&Frac::new(0, 1), &Frac::new(0, 5), 0));
}

#[test]
fn decimals_down_and_up(rt: HostRuntime) {
    let cases = [
        ((1, 3), (0, 333333), (0, 333334)),
        ((10, 4), (2, 500000), (2, 500000)),
        ((0, 5), (0, 0), (0, 0)),
        ((MAX_PART, 1), (MAX_PART, 0), (MAX_PART, 0)),
        ((MAX_PART - 1, MAX_PART), (0, 999999), (1, 0)),
        ((1, MAX_PART), (0, 0), (0, 1)),
    ];
    for ((num, den), want_down, want_up) in cases {
        assert!(rt; num <= MAX_PART && den >= 1 && den <= MAX_PART);
        let fraction = Frac::new(num, den);
        let down = fraction.digits_down();
        let up = fraction.digits_up();
        assert_eq!(rt; (down.whole, down.micro), want_down, "{num}/{den}");
        assert_eq!(rt; (up.whole, up.micro), want_up, "{num}/{den}");
    }
}
