//! The type of fractions, and its operations.
ghost use Rattle.std.specs.Prelude.{◌≡◌, ◌≢◌, ℕ, ◌+◌, ◌*◌, ◌<◌, ◌≤◌, ◌^◌, pos, ◌+ℤ◌, ◌*ℤ◌, ◌<ℤ◌, neg_ℤ, unsigned_abs, Option, Some, None, IfSome, MatchOption};
ghost use Rattle.std.specs.Int.{int_div_euclid};
ghost use Rattle.rat128.specs.Fractions.{Fraction, den, whole_fraction, minus, inverse, order_of, floor_of, ceil_of};
ghost use Rattle.rat128.specs.Rationals.{value, ◌+ℚ◌, ◌-ℚ◌, ◌*ℚ◌, ◌/ℚ◌, neg_ℚ, whole, order_ℚ, IsFloor, IsCeiling};
ghost use Rattle.rat128.specs.Divisors as divisors;
ghost use Rattle.rat128.specs.Operations as spec;
ghost use Rattle.rat128.specs.Operations.{IsRat, IsNarrow};
ghost use Rattle.rat128.specs.Steps as steps;

use crate::divisor::{gcd, gcd_u64};
use crate::number::{
    cross_sum, den_product, divide, divide_u64, product, product_i64, quotient, quotient_i64,
    scaled, sum,
};
use crate::wide::{compare_products, compare_wide_products, full_product};
use std::cmp::Ordering;
use std::marker::Model;

/// The greatest denominator that leaves products of numerators of 64 bits, and their sums, in 127 bits.
const NARROW: u128 = i64::MAX as u128;

/// The greatest size of a number of a fraction.
pub(crate) const LARGEST: u128 = i128::MAX as u128;

/// A fraction in lowest terms with a positive denominator. Neither number passes 2^127 - 1 in size
/// (docs/FRACTIONS.md).
#[derive(Clone, Copy, Debug, PartialEq, Eq)]
pub struct Rat {
    num: i128,
    den: u128,
}

impl Model for Rat {
    ghost use Rattle.std.specs.Prelude.{◌+◌};
    ghost use Rattle.rat128.specs.Fractions.{Fraction};
    ghost use Rattle.rat128.specs.Operations.{IsRat};
    ghost use Rattle.rat128.specs.Steps.{seen, den_back};

    ghost Value = { Fraction };

    ghost view = { λ r. seen r.num r.den };

    ghost invariant = { λ r. IsRat r.num r.den };

    ghost inverse = { λ f. record { num = f.num; den = f.less_one + 1 } };

    ghost inverse_ok = { λ r h. λ i. record { num = r.num; den = den_back r.den h.positive i } };
}

impl Rat {
    /// The numerator, which has the fraction's sign.
    pub fn num(&self) -> i128
        ensures value { result ≡ self.now.num }
        ensures narrow { IsNarrow self.now }
    {
        self.num
    }

    /// The denominator, which is positive.
    pub fn den(&self) -> i128
        ensures value { result ≡ pos (den self.now) }
        ensures narrow { IsNarrow self.now }
    {
        self.den as i128
    }

    /// The quotient of two whole numbers. None exactly where `den` is 0, or a number of the fraction in lowest terms
    /// passes 2^127 - 1 in size (docs/FRACTIONS.md).
    pub fn new(num: i128, den: i128) -> Option<Rat>
        ensures gives { result ≡ spec.new_of num den }
        ensures value { IfSome result (λ quotient. value quotient *ℚ whole den ≡ whole num) }
    {
        if den == 0 {
            return None;
        }
        reduced(
            num.unsigned_abs(),
            den.unsigned_abs(),
            (num < 0) != (den < 0),
        )
    }

    /// The negated fraction.
    pub fn negated(&self) -> Rat
        ensures gives { result ≡ minus self.now }
        ensures value { value result ≡ neg_ℚ (value self.now) }
    {
        Rat {
            num: -self.num,
            den: self.den,
        }
    }

    /// The sum. None exactly where, with g the greatest common divisor of the denominators of a/b and c/d, one of
    /// a(d/g), c(b/g), their sum and b(d/g) passes 2^127 - 1 in size (docs/FRACTIONS.md).
    pub fn add(&self, other: &Rat) -> Option<Rat>
        ensures gives { result ≡ spec.add_of self.now other.now }
        ensures value { IfSome result (λ sum. value sum ≡ value self.now +ℚ value other.now) }
    {
        sum_of(self.num, self.den, other.num, other.den)
    }

    /// The difference: the sum with the negated fraction, and None exactly where that is (docs/FRACTIONS.md).
    pub fn sub(&self, other: &Rat) -> Option<Rat>
        ensures gives { result ≡ spec.sub_of self.now other.now }
        ensures value { IfSome result (λ difference. value difference ≡ value self.now -ℚ value other.now) }
    {
        self.add(&other.negated())
    }

    /// The product. None exactly where one of its two numbers in lowest terms passes 2^127 - 1 in size
    /// (docs/FRACTIONS.md).
    pub fn mul(&self, other: &Rat) -> Option<Rat>
        ensures gives { result ≡ spec.mul_of self.now other.now }
        ensures value { IfSome result (λ product. value product ≡ value self.now *ℚ value other.now) }
    {
        product_of(self.num, self.den, other.num, other.den)
    }

    /// The quotient: the product with the inverse. None exactly where `other` is 0, or that product is None
    /// (docs/FRACTIONS.md).
    pub fn div(&self, other: &Rat) -> Option<Rat>
        ensures gives { result ≡ spec.div_of self.now other.now }
        ensures value { IfSome result (λ quotient. value quotient ≡ value self.now /ℚ value other.now) }
    {
        if other.num == 0 {
            return None;
        }
        self.mul(&inverse_of(other.num, other.den))
    }

    /// Which fraction is the greater, by their exact values (docs/FRACTIONS.md).
    pub fn order(&self, other: &Rat) -> Ordering
        ensures gives { result ≡ order_of self.now other.now }
        ensures value { result ≡ order_ℚ (value self.now) (value other.now) }
    {
        cross_order(self.num, self.den, other.num, other.den)
    }

    /// The greatest whole number that is at most the fraction (docs/FRACTIONS.md).
    pub fn floor(&self) -> i128
        ensures gives { result ≡ floor_of self.now }
        ensures value { IsFloor (value self.now) result }
    {
        rounded_down(self.num, self.den)
    }

    /// The least whole number that is at least the fraction (docs/FRACTIONS.md).
    pub fn ceil(&self) -> i128
        ensures gives { result ≡ ceil_of self.now }
        ensures value { IsCeiling (value self.now) result }
    {
        -rounded_down(-self.num, self.den)
    }
}

impl From<i64> for Rat {
    ghost use Rattle.std.specs.Prelude.{◌≡◌};
    ghost use Rattle.rat128.specs.Fractions.{whole_fraction};

    ghost from_gives = { λ n r. r ≡ whole_fraction n };

    fn from(n: i64) -> Rat {
        lowest(i128::from(n), 1, 1)
    }
}

/// Which of the quotients `one / over` and `other / other_over` is the greater, for positive divisors. It is exact
/// for all numbers, also where the quotients themselves pass what a `Rat` holds (docs/FRACTIONS.md).
pub fn order_quotients(one: &Rat, over: &Rat, other: &Rat, other_over: &Rat) -> Ordering
    requires over { pos 0 <ℤ over.now.num }
    requires other_over { pos 0 <ℤ other_over.now.num }
    ensures { result ≡ order_ℚ (value one.now /ℚ value over.now) (value other.now /ℚ value other_over.now) }
{
    let sizes = compare_wide_products(
        full_product(one.num.unsigned_abs(), other_over.num.unsigned_abs()),
        full_product(other.den, over.den),
        full_product(other.num.unsigned_abs(), over.num.unsigned_abs()),
        full_product(one.den, other_over.den),
    );
    signed_order(one.num < 0, other.num < 0, sizes)
}

/// How a/b and c/d compare: by their cross products.
fn cross_order(a: i128, b: u128, c: i128, d: u128) -> Ordering
    requires left { IsRat a b }
    requires right { IsRat c d }
    ensures { result ≡ order_of (steps.seen a b) (steps.seen c d) }
{
    if b == d {
        return a.cmp(&c);
    }
    let sizes = compare_products(a.unsigned_abs(), d, c.unsigned_abs(), b);
    signed_order(a < 0, c < 0, sizes)
}

/// How two numbers compare, by whether each is negative and by how their sizes compare.
fn signed_order(negative: bool, other_negative: bool, sizes: Ordering) -> Ordering
    ensures { result ≡ steps.order_by_signs negative other_negative sizes }
{
    match (negative, other_negative) {
        (false, false) => sizes,
        (false, true) => Ordering::Greater,
        (true, false) => Ordering::Less,
        (true, true) => sizes.reverse(),
    }
}

/// The quotient rounded down.
fn rounded_down(num: i128, den: u128) -> i128
    requires given { IsRat num den }
    ensures value { result ≡ int_div_euclid num (pos den) }
    ensures small { unsigned_abs result < 2 ^ 127 }
{
    if den == 1 {
        return num;
    }
    match (i64::try_from(num), i64::try_from(den)) {
        (Ok(num), Ok(den)) => i128::from(num.div_euclid(den)),
        _ => num.div_euclid(den as i128),
    }
}

/// The fraction of two sizes in lowest terms, where its numbers fit.
fn reduced(top: u128, bottom: u128, negative: bool) -> Option<Rat>
    requires { 0 < bottom }
    ensures { result ≡ spec.reduced (steps.seen (steps.signed top negative) bottom) }
{
    let common = gcd(top, bottom);
    let top = divide(top, common);
    let bottom = divide(bottom, common);
    if top > LARGEST || bottom > LARGEST {
        return None;
    }
    Some(Rat {
        num: signed(top, negative),
        den: bottom,
    })
}

/// The whole number over 1.
pub(crate) fn whole_rat(num: i128) -> Rat
    requires { unsigned_abs num < 2 ^ 127 }
    ensures { result ≡ whole_fraction num }
{
    lowest(num, 1, 1)
}

/// The fraction of these two numbers, where they have only 1 in common.
pub(crate) fn in_lowest_terms(num: i128, den: u128) -> Option<Rat>
    requires positive { 0 < den }
    requires num_small { unsigned_abs num < 2 ^ 127 }
    requires den_small { den < 2 ^ 127 }
    ensures { MatchOption result (divisors.gcd (unsigned_abs num) den ≢ 1) (λ r. r ≡ steps.seen num den) }
{
    if gcd(num.unsigned_abs(), den) == 1 {
        Some(Rat { num, den })
    } else {
        None
    }
}

/// A number of this size, negative where it is so marked.
fn signed(size: u128, negative: bool) -> i128
    requires { size < 2 ^ 127 }
    ensures { result ≡ steps.signed size negative }
{
    if negative {
        -(size as i128)
    } else {
        size as i128
    }
}

/// The inverse of c/d.
fn inverse_of(c: i128, d: u128) -> Rat
    requires given { IsRat c d }
    requires nonzero { c ≢ pos 0 }
    ensures { result ≡ inverse (steps.seen c d) }
{
    Rat {
        num: signed(d, c < 0),
        den: c.unsigned_abs(),
    }
}

/// The sum of a/b and c/d.
fn sum_of(a: i128, b: u128, c: i128, d: u128) -> Option<Rat>
    requires left { IsRat a b }
    requires right { IsRat c d }
    ensures { result ≡ spec.add_of (steps.seen a b) (steps.seen c d) }
{
    if b == 1 && d == 1 {
        return whole_sum(a, c);
    }
    if b <= NARROW && d <= NARROW {
        if let (Ok(a), Ok(c)) = (i64::try_from(a), i64::try_from(c)) {
            return narrow_sum(a, b as u64, c, d as u64);
        }
    }
    wide_sum(a, b, c, d)
}

/// The sum of whole numbers.
fn whole_sum(a: i128, c: i128) -> Option<Rat>
    requires left { IsRat a 1 }
    requires right { IsRat c 1 }
    ensures { result ≡ spec.add_of (steps.seen a 1) (steps.seen c 1) }
{
    let num = sum(a, c)?;
    Some(lowest(num, 1, 1))
}

/// The sum where no product can pass.
#[inline(never)]
fn narrow_sum(a: i64, b: u64, c: i64, d: u64) -> Option<Rat>
    requires left { IsRat a b }
    requires right { IsRat c d }
    requires left_small { b < 2 ^ 63 }
    requires right_small { d < 2 ^ 63 }
    ensures { result ≡ spec.add_of (steps.seen a b) (steps.seen c d) }
{
    if b == d {
        return same_sum(a, c, b);
    }
    let common = gcd_u64(b, d);
    let left = divide_u64(b, common);
    let right = divide_u64(d, common);
    let num = cross_sum(a, right, c, left);
    let den = u128::from(b) * u128::from(right);
    Some(lowest(num, den, u128::from(common)))
}

/// The sum of fractions with one denominator.
fn same_sum(a: i64, c: i64, b: u64) -> Option<Rat>
    requires left { IsRat a b }
    requires right { IsRat c b }
    requires small { b < 2 ^ 63 }
    ensures { result ≡ spec.add_of (steps.seen a b) (steps.seen c b) }
{
    let num = i128::from(a) + i128::from(c);
    Some(lowest(num, u128::from(b), u128::from(b)))
}

#[inline(never)]
fn wide_sum(a: i128, b: u128, c: i128, d: u128) -> Option<Rat>
    requires left { IsRat a b }
    requires right { IsRat c d }
    ensures { result ≡ spec.add_of (steps.seen a b) (steps.seen c d) }
{
    sum_over(a, b, c, d, gcd(b, d))
}

/// The sum, given the greatest common divisor of the denominators.
fn sum_over(a: i128, b: u128, c: i128, d: u128, common: u128) -> Option<Rat>
    requires left { IsRat a b }
    requires right { IsRat c d }
    requires common { common ≡ divisors.gcd b d }
    requires some { 0 < common }
    ensures { result ≡ steps.sum_in_steps a b c d common }
{
    let left = divide(b, common);
    let right = divide(d, common);
    let first = scaled(a, right)?;
    let second = scaled(c, left)?;
    let num = sum(first, second)?;
    let den = den_product(b, right)?;
    Some(lowest(num, den, common))
}

/// The product of a/b and c/d.
fn product_of(a: i128, b: u128, c: i128, d: u128) -> Option<Rat>
    requires left { IsRat a b }
    requires right { IsRat c d }
    ensures { result ≡ spec.mul_of (steps.seen a b) (steps.seen c d) }
{
    if a == 0 || c == 0 {
        return Some(Rat { num: 0, den: 1 });
    }
    if b <= NARROW && d <= NARROW {
        if let (Ok(a), Ok(c)) = (i64::try_from(a), i64::try_from(c)) {
            return narrow_product(a, b as u64, c, d as u64);
        }
    }
    wide_product(a, b, c, d)
}

/// The product where neither number can pass.
#[inline(never)]
fn narrow_product(a: i64, b: u64, c: i64, d: u64) -> Option<Rat>
    requires left { IsRat a b }
    requires right { IsRat c d }
    requires left_small { b < 2 ^ 63 }
    requires right_small { d < 2 ^ 63 }
    ensures { result ≡ spec.mul_of (steps.seen a b) (steps.seen c d) }
{
    let first = gcd_u64(a.unsigned_abs(), d);
    let second = gcd_u64(c.unsigned_abs(), b);
    Some(Rat {
        num: product_i64(quotient_i64(a, first), quotient_i64(c, second)),
        den: u128::from(divide_u64(b, second)) * u128::from(divide_u64(d, first)),
    })
}

#[inline(never)]
fn wide_product(a: i128, b: u128, c: i128, d: u128) -> Option<Rat>
    requires left { IsRat a b }
    requires right { IsRat c d }
    ensures { result ≡ spec.mul_of (steps.seen a b) (steps.seen c d) }
{
    product_over(
        a,
        b,
        c,
        d,
        gcd(a.unsigned_abs(), d),
        gcd(c.unsigned_abs(), b),
    )
}

/// The product, given the greatest common divisors of a and d, and of c and b.
fn product_over(a: i128, b: u128, c: i128, d: u128, first: u128, second: u128) -> Option<Rat>
    requires left { IsRat a b }
    requires right { IsRat c d }
    requires first { first ≡ divisors.gcd (unsigned_abs a) d }
    requires second { second ≡ divisors.gcd (unsigned_abs c) b }
    requires some { (0 < first) × (0 < second) }
    requires small { (first ≤ d) × (second ≤ b) }
    ensures { result ≡ steps.product_in_steps a b c d first second }
{
    let num = product(quotient(a, first), quotient(c, second))?;
    let den = den_product(divide(b, second), divide(d, first))?;
    Some(Rat { num, den })
}

/// The fraction in lowest terms, where only divisors of `common` can be common to both numbers.
#[inline]
fn lowest(num: i128, den: u128, common: u128) -> Rat
    requires positive { 0 < den }
    requires some { 0 < common }
    requires num_small { unsigned_abs num < 2 ^ 127 }
    requires den_small { den < 2 ^ 127 }
    requires common { divisors.gcd (unsigned_abs num) den ≡ divisors.gcd (unsigned_abs num) common }
    ensures { result ≡ divisors.lowest (steps.seen num den) }
{
    if common == 1 {
        return Rat { num, den };
    }
    let divisor = gcd(num.unsigned_abs(), common);
    Rat {
        num: quotient(num, divisor),
        den: divide(den, divisor),
    }
}
