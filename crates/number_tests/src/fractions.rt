//! Calls of `Rat` at worked values.

use rat128::{Rat, RatMemory, order_quotients, read_rat};
use std::cmp::Ordering;

/// Two fractions, and their sum, difference, product and quotient.
const PAIRS: [(&str, &str, &str, &str, &str, &str); 8] = [
    ("-1", "1", "0", "-2", "-1", "-1"),
    ("1/2", "1/3", "5/6", "1/6", "1/6", "3/2"),
    (
        "9223372036854775807",
        "1/9223372036854775807",
        "85070591730234615847396907784232501250/9223372036854775807",
        "85070591730234615847396907784232501248/9223372036854775807",
        "1",
        "85070591730234615847396907784232501249",
    ),
    (
        "18446744073709551616/3",
        "-9223372036854775808/3",
        "9223372036854775808/3",
        "9223372036854775808",
        "none",
        "-2",
    ),
    (
        "170141183460469231731687303715884105727",
        "-1",
        "170141183460469231731687303715884105726",
        "none",
        "-170141183460469231731687303715884105727",
        "-170141183460469231731687303715884105727",
    ),
    (
        "1/170141183460469231731687303715884105727",
        "1/2",
        "none",
        "none",
        "none",
        "2/170141183460469231731687303715884105727",
    ),
    (
        "170141183460469231731687303715884105727",
        "1/170141183460469231731687303715884105727",
        "none",
        "none",
        "1",
        "none",
    ),
    (
        "1/18446744073709551616",
        "1/9223372036854775808",
        "3/18446744073709551616",
        "-1/18446744073709551616",
        "none",
        "1/2",
    ),
];

/// The fraction that is spelled so; 0 for any other text.
fn spelled(text: &str) -> Rat {
    read_rat(text.as_bytes()).unwrap_or(Rat::from(0))
}

#[test]
fn lowest_terms(rt: HostRuntime) {
    assert_eq!(rt; Rat::new(6, -4), read_rat(b"-3/2"));
    assert_eq!(rt; Rat::new(i128::MIN, i128::MIN), Some(Rat::from(1)));
    assert_eq!(rt; spelled("-3/2").num(), -3);
    assert_eq!(rt; spelled("-3/2").den(), 2);
}

#[test]
fn no_quotient(rt: HostRuntime) {
    assert_eq!(rt; Rat::new(1, 0), None);
    assert_eq!(rt; Rat::new(i128::MIN, 1), None);
    assert_eq!(rt; Rat::new(1, i128::MIN), None);
}

#[test]
fn sums(rt: HostRuntime) {
    for (x, y, sum, _, _, _) in PAIRS {
        assert_eq!(rt;
            spelled(x).add(&spelled(y)),
            read_rat(sum.as_bytes()),
            "{x} + {y}"
        );
    }
}

#[test]
fn differences(rt: HostRuntime) {
    for (x, y, _, difference, _, _) in PAIRS {
        assert_eq!(rt;
            spelled(x).sub(&spelled(y)),
            read_rat(difference.as_bytes()),
            "{x} - {y}"
        );
    }
}

#[test]
fn products(rt: HostRuntime) {
    for (x, y, _, _, product, _) in PAIRS {
        assert_eq!(rt;
            spelled(x).mul(&spelled(y)),
            read_rat(product.as_bytes()),
            "{x} * {y}"
        );
    }
}

#[test]
fn quotients(rt: HostRuntime) {
    for (x, y, _, _, _, quotient) in PAIRS {
        assert_eq!(rt;
            spelled(x).div(&spelled(y)),
            read_rat(quotient.as_bytes()),
            "{x} / {y}"
        );
    }
    assert_eq!(rt; Rat::from(1).div(&Rat::from(0)), None);
}

#[test]
fn rounded(rt: HostRuntime) {
    assert_eq!(rt; spelled("-7/2").floor(), -4);
    assert_eq!(rt; spelled("-7/2").ceil(), -3);
    assert_eq!(rt; spelled("7/2").floor(), 3);
    assert_eq!(rt; spelled("7/2").ceil(), 4);
}

#[test]
fn ordered(rt: HostRuntime) {
    assert_eq!(rt; spelled("1/3").order(&spelled("1/2")), Ordering::Less);
    assert_eq!(rt; spelled("-1/3").order(&spelled("-1/2")), Ordering::Greater);
    assert_eq!(rt;
        spelled("1/2").order(&spelled("1/2").negated().negated()),
        Ordering::Equal
    );
}

#[test]
fn ordered_at_the_limit(rt: HostRuntime) {
    let tiny = spelled("1/170141183460469231731687303715884105727");
    let less_tiny = spelled("1/170141183460469231731687303715884105726");
    assert_eq!(rt; tiny.order(&less_tiny), Ordering::Less);
    assert_eq!(rt; tiny.negated().ceil(), 0);
}

/// How one/over and other/other_over compare; none where a divisor is not positive.
fn order_of_quotients(one: &str, over: &str, other: &str, other_over: &str) -> Option<Ordering> {
    let (over, other_over) = (spelled(over), spelled(other_over));
    if over.num() > 0 && other_over.num() > 0 {
        Some(order_quotients(&spelled(one), &over, &spelled(other), &other_over))
    } else {
        None
    }
}

#[test]
fn ordered_quotients(rt: HostRuntime) {
    let huge = "170141183460469231731687303715884105727";
    let tiny = "1/170141183460469231731687303715884105727";
    let less_tiny = "1/170141183460469231731687303715884105726";
    assert_eq!(rt;
        order_of_quotients("1", "3", "2", "5"),
        Some(Ordering::Less)
    );
    assert_eq!(rt;
        order_of_quotients(huge, tiny, huge, less_tiny),
        Some(Ordering::Greater)
    );
    assert_eq!(rt;
        order_of_quotients(tiny, huge, tiny, huge),
        Some(Ordering::Equal)
    );
}

#[test]
fn written(rt: HostRuntime) {
    for text in ["0", "-1", "-5/6", "170141183460469231731687303715884105727"] {
        let mut out = Vec::new(rt.alloc());
        assert_eq!(rt; spelled(text).write_rat(&mut out), Ok(()), "{text}");
        assert!(rt; out.as_slice() == text.as_bytes(), "{text}");
    }
}

#[test]
fn no_spelling(rt: HostRuntime) {
    for text in [
        "",
        "-",
        "-0",
        "01",
        "+1",
        "4/2",
        "0/1",
        "1/1",
        "1/0",
        "1/",
        "/2",
        "1/2/3",
        "1 ",
        "170141183460469231731687303715884105728",
    ] {
        assert_eq!(rt; read_rat(text.as_bytes()), None, "{text}");
    }
}

#[test]
fn fault_has_a_text(rt: HostRuntime) {
    assert!(rt; format!(in rt.alloc(); "{RatMemory}").is_ok());
}
