//! Products of two and of four numbers of 128 bits, for comparisons that must be exact.
ghost use Rattle.std.specs.Prelude.{◌≡◌, ◌+◌, ◌*◌, ◌^◌, ◌<◌};
ghost use Rattle.std.specs.Ordering.{nat_cmp};

use std::cmp::Ordering;
use std::marker::Model;

/// The greatest number of 64 bits.
const SMALL: u128 = u64::MAX as u128;

/// A number of 256 bits.
#[derive(Clone, Copy)]
pub(crate) struct Wide {
    high: u128,
    low: u128,
}

impl Model for Wide {
    ghost use Rattle.std.specs.Prelude.{ℕ, ◌+◌, ◌*◌, ◌/◌, ◌%◌, ◌^◌, ◌<◌};
    ghost use Rattle.rat128.specs.Steps.{high_back, low_back};

    ghost Value = { ℕ };

    ghost view = { λ w. w.low + w.high * 2 ^ 128 };

    ghost invariant = { λ w. w.low < 2 ^ 128 };

    ghost inverse = { λ n. record { high = n / 2 ^ 128; low = n % 2 ^ 128 } };

    ghost inverse_ok = { λ w h. λ i. record { high = high_back w.low w.high h i; low = low_back w.low w.high h i } };
}

/// The product of two numbers.
pub(crate) fn full_product(a: u128, b: u128) -> Wide
    ensures { result ≡ a * b }
{
    if a <= SMALL && b <= SMALL {
        return Wide {
            high: 0,
            low: a * b,
        };
    }
    let (low, high) = a.carrying_mul(b, 0);
    Wide { high, low }
}

/// Compares two numbers of 256 bits.
fn compare_wide(x: Wide, y: Wide) -> Ordering
    ensures { result ≡ nat_cmp x y }
{
    x.high.cmp(&y.high).then(x.low.cmp(&y.low))
}

/// Compares the products a * b and c * d.
pub(crate) fn compare_products(a: u128, b: u128, c: u128, d: u128) -> Ordering
    ensures { result ≡ nat_cmp (a * b) (c * d) }
{
    compare_wide(full_product(a, b), full_product(c, d))
}

/// A number of 512 bits.
#[derive(Drop)]
struct Widest {
    high: Wide,
    low: Wide,
}

/// The product of two numbers of 256 bits.
fn widest_product(x: Wide, y: Wide) -> Widest
    ensures value { result.low + result.high * 2 ^ 256 ≡ x * y }
    ensures small { result.low < 2 ^ 256 }
{
    let (low, carry) = x.low.carrying_mul(y.low, 0);
    let (part, over) = x.high.carrying_mul(y.low, carry);
    let (second, more) = x.low.carrying_mul(y.high, part);
    let (third, fourth) = x.high.carrying_mul_add(y.high, over, more);
    Widest {
        high: Wide {
            high: fourth,
            low: third,
        },
        low: Wide { high: second, low },
    }
}

/// Compares the products x * y and z * w.
pub(crate) fn compare_wide_products(x: Wide, y: Wide, z: Wide, w: Wide) -> Ordering
    ensures { result ≡ nat_cmp (x * y) (z * w) }
{
    if x.high == 0 && y.high == 0 && z.high == 0 && w.high == 0 {
        return compare_products(x.low, y.low, z.low, w.low);
    }
    let left = widest_product(x, y);
    let right = widest_product(z, w);
    compare_wide(left.high, right.high).then(compare_wide(left.low, right.low))
}
