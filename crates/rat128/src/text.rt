//! The one spelling of a fraction: `p` where its denominator is 1, else `p/q`, in lowest terms, with no sign but a `-`
//! before a negative number and no zero before another digit.
ghost use Rattle.std.specs.Prelude.{◌≡◌, ◌≢◌, ◌⊎◌, ℕ, ℤ, ◌+◌, ◌-◌, ◌*◌, ◌<◌, ◌≤◌, ◌^◌, ◌++◌, length, slice_index, vec_len, vec_capacity, pos, neg_ℤ, unsigned_abs, decimal, MatchOption, IfSome, IfNone, OnOk, OnErr};
ghost use Rattle.std.specs.Fmt.{signed_decimal};
ghost use Rattle.std.specs.Int.{IsInRange};
ghost use Rattle.rat128.specs.Fractions.{Fraction};
ghost use Rattle.rat128.specs.Operations.{IsNarrow};
ghost use Rattle.rat128.specs.Steps.{AreTexts};
ghost use Rattle.rat128.specs.Text.{rat_text};

use crate::memory::RatMemory;
use crate::rat::{LARGEST, Rat, in_lowest_terms, whole_rat};
use itoa::Buffer;

/// The fraction that the bytes spell. None exactly where they are not the one spelling of a fraction whose numbers are
/// at most 2^127 - 1 in size (docs/FRACTIONS.md).
pub fn read_rat(bytes: &[u8]) -> Option<Rat>
    ensures some { IfSome result (λ r. rat_text r ≡ bytes.now) }
    ensures none { IfNone result ((r : Fraction) → IsNarrow r → rat_text r ≢ bytes.now) }
{
    let slash = slash_at(bytes);
    if slash == bytes.len() {
        read_alone(bytes)
    } else {
        read_both(&bytes[..slash], &bytes[slash + 1..])
    }
}

/// A fraction by its numerator alone.
fn read_alone(num: &[u8]) -> Option<Rat>
    ensures { MatchOption result ((z : ℤ) → unsigned_abs z < 2 ^ 127 → signed_decimal z ≢ num.now) (λ r. (r.less_one ≡ 0) × (signed_decimal r.num ≡ num.now)) }
{
    Some(whole_rat(read_whole(num)?))
}

/// A fraction by its numerator and a denominator other than 1.
fn read_both(num: &[u8], den: &[u8]) -> Option<Rat>
    ensures { MatchOption result ((r : Fraction) → IsNarrow r → 0 < r.less_one → AreTexts r num.now den.now → ⊥) (λ r. (0 < r.less_one) × AreTexts r num.now den.now) }
{
    let num = read_whole(num)?;
    let den = read_natural(den)?;
    if den < 2 {
        None
    } else {
        in_lowest_terms(num, den)
    }
}

/// The place of the first slash, or the number of bytes where there is none.
fn slash_at(bytes: &[u8]) -> usize
    ensures within { result ≤ length bytes.now }
    ensures before { (k : ℕ) → k < result → slice_index bytes.now k ≢ 47 }
    ensures found { result < length bytes.now → slice_index bytes.now result ≡ 47 }
{
    for (i, byte) in bytes.iter().enumerate() {
        if *byte == b'/' {
            return i;
        }
    }
    bytes.len()
}

/// A whole number: digits, after a `-` where it is negative.
fn read_whole(bytes: &[u8]) -> Option<i128>
    ensures { MatchOption result ((z : ℤ) → unsigned_abs z < 2 ^ 127 → signed_decimal z ≢ bytes.now) (λ z. (unsigned_abs z < 2 ^ 127) × (signed_decimal z ≡ bytes.now)) }
{
    match bytes {
        [b'-', digits @ ..] => negative(read_natural(digits)?),
        _ => Some(read_natural(bytes)? as i128),
    }
}

/// The negative number of this size; none of size 0.
fn negative(size: u128) -> Option<i128>
    requires { size < 2 ^ 127 }
    ensures { MatchOption result (size ≡ 0) (λ z. (0 < size) × (z ≡ neg_ℤ (pos size))) }
{
    if size == 0 {
        None
    } else {
        Some(-(size as i128))
    }
}

/// Digits with no zero before another digit.
fn read_natural(digits: &[u8]) -> Option<u128>
    ensures { MatchOption result ((n : ℕ) → n < 2 ^ 127 → decimal n ≢ digits.now) (λ n. (n < 2 ^ 127) × (decimal n ≡ digits.now)) }
{
    match digits {
        [] => None,
        [b'0'] => Some(0),
        [b'0', ..] => None,
        _ => read_digits(digits),
    }
}

fn read_digits(digits: &[u8]) -> Option<u128>
    requires some { 0 < length digits.now }
    requires first { slice_index digits.now 0 ≢ 48 }
    ensures { MatchOption result ((n : ℕ) → n < 2 ^ 127 → decimal n ≢ digits.now) (λ n. (n < 2 ^ 127) × (decimal n ≡ digits.now)) }
{
    let mut value = 0;
    for digit in digits {
        value = with_digit(value, *digit)?;
    }
    Some(value)
}

/// The number with one more digit.
fn with_digit(value: u128, digit: u8) -> Option<u128>
    requires { value < 2 ^ 127 }
    ensures none { IfNone result (IsInRange 48 57 digit → 2 ^ 127 ≤ value * 10 + (digit - 48)) }
    ensures some { IfSome result (λ n. IsInRange 48 57 digit × (n ≡ value * 10 + (digit - 48)) × (n < 2 ^ 127)) }
{
    if !digit.is_ascii_digit() {
        return None;
    }
    value
        .checked_mul(10)?
        .checked_add(u128::from(digit - b'0'))
        .filter(|n| *n <= LARGEST)
}

impl Rat {
    /// Appends the spelling (docs/FRACTIONS.md). It errs only where `out` has no room for it and can get none, and then
    /// leaves `out` as it was.
    pub fn write_rat(&self, out: &mut Vec<u8>) -> Result<(), RatMemory>
        ensures ok { OnOk result (out.new.items ≡ out.old.items ++ rat_text self.now) }
        ensures err { OnErr result (out.new.items ≡ out.old.items) }
        ensures full { OnErr result (vec_capacity out.old < vec_len out.old + length (rat_text self.now)) }
    {
        let mut num = Buffer::new();
        let num = num.format(self.num()).as_bytes();
        if self.den() == 1 {
            out.extend_from_slice(num)?;
            return Ok(());
        }
        let mut den = Buffer::new();
        let den = den.format(self.den()).as_bytes();
        out.reserve(num.len() + 1 + den.len())?;
        out.extend_from_slice(num)?;
        out.push(b'/')?;
        out.extend_from_slice(den)?;
        Ok(())
    }
}
