//! Arithmetic on the two numbers of a fraction. Numbers of 64 bits are divided in 64 bits, and a division by 1 is none.
ghost use Rattle.std.specs.Prelude.{◌≡◌, ◌*◌, ◌/◌, ◌<◌, ◌^◌, pos, ◌+ℤ◌, ◌*ℤ◌, int_div, unsigned_abs};
ghost use Rattle.rat128.specs.Steps as spec;

/// The quotient, rounded down.
pub(crate) fn divide(n: u128, by: u128) -> u128
    requires { 0 < by }
    ensures { result ≡ n / by }
{
    if by == 1 {
        return n;
    }
    match (u64::try_from(n), u64::try_from(by)) {
        (Ok(n), Ok(by)) => u128::from(n / by),
        _ => n / by,
    }
}

/// The quotient, rounded toward 0.
pub(crate) fn quotient(n: i128, by: u128) -> i128
    requires positive { 0 < by }
    requires small { by < 2 ^ 127 }
    ensures { result ≡ int_div n (pos by) }
{
    if by == 1 {
        return n;
    }
    match (i64::try_from(n), i64::try_from(by)) {
        (Ok(n), Ok(by)) => i128::from(n / by),
        _ => n / by as i128,
    }
}

/// The same for numbers of 64 bits.
pub(crate) fn divide_u64(n: u64, by: u64) -> u64
    requires { 0 < by }
    ensures { result ≡ n / by }
{
    if by == 1 { n } else { n / by }
}

/// The quotient of numbers of 64 bits, rounded toward 0.
pub(crate) fn quotient_i64(n: i64, by: u64) -> i64
    requires positive { 0 < by }
    requires small { by < 2 ^ 63 }
    ensures { result ≡ int_div n (pos by) }
{
    if by == 1 { n } else { n / by as i64 }
}

/// The sum a * d + c * b of numbers of 64 bits, which fits.
pub(crate) fn cross_sum(a: i64, d: u64, c: i64, b: u64) -> i128
    requires left { d < 2 ^ 63 }
    requires right { b < 2 ^ 63 }
    ensures value { result ≡ a *ℤ pos d +ℤ c *ℤ pos b }
    ensures small { unsigned_abs result < 2 ^ 127 }
{
    scaled_i64(a, d) + scaled_i64(c, b)
}

fn scaled_i64(a: i64, b: u64) -> i128
    requires { b < 2 ^ 63 }
    ensures value { result ≡ a *ℤ pos b }
    ensures small { unsigned_abs result < 2 ^ 126 }
{
    i128::from(a) * i128::from(b as i64)
}

/// The product of numerators of 64 bits, which fits.
pub(crate) fn product_i64(a: i64, b: i64) -> i128
    ensures value { result ≡ a *ℤ b }
    ensures small { unsigned_abs result < 2 ^ 127 }
{
    i128::from(a) * i128::from(b)
}

/// A numerator times a denominator, where it fits.
pub(crate) fn scaled(a: i128, b: u128) -> Option<i128>
    requires { b < 2 ^ 127 }
    ensures { result ≡ spec.small (a *ℤ pos b) }
{
    a.checked_mul(b as i128)
        .filter(|product| *product != i128::MIN)
}

/// The product of two numerators, where it fits.
pub(crate) fn product(a: i128, b: i128) -> Option<i128>
    ensures { result ≡ spec.small (a *ℤ b) }
{
    a.checked_mul(b).filter(|product| *product != i128::MIN)
}

/// The sum of two numerators, where it fits.
pub(crate) fn sum(a: i128, b: i128) -> Option<i128>
    ensures { result ≡ spec.small (a +ℤ b) }
{
    a.checked_add(b).filter(|sum| *sum != i128::MIN)
}

/// The product of two denominators, where it fits.
pub(crate) fn den_product(a: u128, b: u128) -> Option<u128>
    ensures { result ≡ spec.small_den (a * b) }
{
    a.checked_mul(b)
        .filter(|product| *product <= i128::MAX as u128)
}
