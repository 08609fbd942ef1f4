//! Each operation at all pairs of fractions of a grid of edge values, against another program.

use rat128::Rat;

/// The numerators and denominators that the sweep takes in every combination.
const NUMERATORS: [i128; 10] = [
    0,
    1,
    -1,
    1 << 63,
    -(1 << 63),
    1 << 64,
    1 << 126,
    -(1 << 126),
    i128::MAX,
    -i128::MAX,
];

const DENOMINATORS: [i128; 5] = [1, 1 << 63, 1 << 64, 1 << 126, i128::MAX];

/// The quotient; 0 where there is none.
fn fraction(num: i128, den: i128) -> Rat {
    Rat::new(num, den).unwrap_or(Rat::from(0))
}

/// Mixes one more number into a checksum.
fn mixed(sum: u64, n: u64) -> u64 {
    sum.wrapping_mul(1_000_003).wrapping_add(n)
}

/// Mixes a result into a checksum: the numerator's size by its low and high 64 bits, then 1 where it is negative,
/// then the denominator likewise; 7 for no result.
fn noted(sum: u64, outcome: Option<Rat>) -> u64 {
    match outcome {
        None => mixed(sum, 7),
        Some(r) => {
            let signed = mixed(halves(sum, r.num().unsigned_abs()), u64::from(r.num() < 0));
            halves(signed, r.den().unsigned_abs())
        }
    }
}

fn halves(sum: u64, n: u128) -> u64 {
    mixed(
        mixed(sum, (n & 0xffff_ffff_ffff_ffff) as u64),
        (n >> 64) as u64,
    )
}

fn noted_pair(sum: u64, x: &Rat, y: &Rat) -> u64 {
    noted(
        noted(noted(noted(sum, x.add(y)), x.sub(y)), x.mul(y)),
        x.div(y),
    )
}

/// The fraction of this number in the sweep.
fn swept(i: usize) -> Rat {
    fraction(NUMERATORS[i / 5 % 10], DENOMINATORS[i % 5])
}

// The checksum over all pairs of fractions was computed by a program of its own, on numbers of any size.
#[test]
fn sweep(rt: HostRuntime) {
    let mut sum = 0;
    for i in 0..2500 {
        sum = noted_pair(sum, &swept(i / 50), &swept(i % 50));
    }
    assert_eq!(rt; sum, 3654240988430860935);
}
