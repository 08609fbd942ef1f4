//! The greatest common divisor, by halving and taking away: it needs no division, and numbers of 64 bits are kept in
//! 64 bits.
ghost use Rattle.std.specs.Prelude.{◌≡◌, ℕ, ◌*◌, ◌%◌, ◌^◌, ◌<◌, ◌≤◌, min};
ghost use Rattle.std.specs.Int.{w64, w128, trailing_zeros};
ghost use Rattle.rat128.specs.Divisors as spec;

/// The greatest common divisor of two numbers; that of 0 and a number is the number.
#[tactic(auto, using(crate::proofs::Divisors::gcd_facts))]
pub(crate) fn gcd(a: u128, b: u128) -> u128
    ensures value { result ≡ spec.gcd a b }
    ensures positive { 0 < b → 0 < result }
    ensures bound { 0 < b → result ≤ b }
{
    match (u64::try_from(a), u64::try_from(b)) {
        (Ok(a), Ok(b)) => u128::from(gcd_u64(a, b)),
        _ => gcd_u128(a, b),
    }
}

/// The same for numbers of 64 bits.
#[tactic(auto, using(crate::proofs::Divisors::gcd_facts))]
pub(crate) fn gcd_u64(a: u64, b: u64) -> u64
    ensures value { result ≡ spec.gcd a b }
    ensures positive { 0 < b → 0 < result }
    ensures bound { 0 < b → result ≤ b }
{
    if a == 1 || b == 1 {
        return 1;
    }
    if a == 0 {
        return b;
    }
    if b == 0 {
        return a;
    }
    halved_u64(a, b)
}

#[tactic(auto, using(crate::proofs::Divisors::gcd_facts))]
fn gcd_u128(a: u128, b: u128) -> u128
    ensures value { result ≡ spec.gcd a b }
    ensures positive { 0 < b → 0 < result }
    ensures bound { 0 < b → result ≤ b }
{
    if a == 1 || b == 1 {
        return 1;
    }
    if a == 0 {
        return b;
    }
    if b == 0 {
        return a;
    }
    halved_u128(a, b)
}

/// The greatest common divisor of two positive numbers.
fn halved_u64(a: u64, b: u64) -> u64
    requires left { 0 < a }
    requires right { 0 < b }
    ensures { result ≡ spec.gcd a b }
{
    let mut x = odd_part_u64(a);
    let mut y = odd_part_u64(b);
    while x != y {
        let rest = odd_part_u64(x.abs_diff(y));
        x = x.min(y);
        y = rest;
    }
    x << a.trailing_zeros().min(b.trailing_zeros())
}

/// The number without its factors of 2.
fn odd_part_u64(n: u64) -> u64
    requires { 0 < n }
    ensures odd { result % 2 ≡ 1 }
    ensures part { n ≡ 2 ^ trailing_zeros w64 n * result }
{
    n >> n.trailing_zeros()
}

fn halved_u128(a: u128, b: u128) -> u128
    requires left { 0 < a }
    requires right { 0 < b }
    ensures { result ≡ spec.gcd a b }
{
    let mut x = odd_part_u128(a);
    let mut y = odd_part_u128(b);
    while x != y {
        let rest = odd_part_u128(x.abs_diff(y));
        x = x.min(y);
        y = rest;
    }
    x << a.trailing_zeros().min(b.trailing_zeros())
}

fn odd_part_u128(n: u128) -> u128
    requires { 0 < n }
    ensures odd { result % 2 ≡ 1 }
    ensures part { n ≡ 2 ^ trailing_zeros w128 n * result }
{
    n >> n.trailing_zeros()
}
