//! The words of a line: what stands before a mark, whole numbers in their one spelling, and names.

ghost use Rattle.std.specs.Prelude.{◌≡◌, ◌≤◌, ◌^◌, ◌<◌, ◌+◌, ◌-◌, ◌*◌, IfOk, IfSome, if◌then◌else◌, Some, None, SomeIff, true, position, length, ◌==◌};
ghost use Rattle.std.specs.Option.{option_map};
ghost use Rattle.base_kit.specs.Names.{is_name};
ghost use Rattle.answer_text.specs.Tokens as spec;

use base_kit::{Memory, Name, NameFault};
use std::alloc::Global;

/// What stands before the first such byte, and what stands behind it.
pub fn cut(bytes: &[u8], mark: u8) -> Option<(&[u8], &[u8])>
    ensures { option_map (λ x. (x.0.now, x.1.now)) result ≡ spec.cut mark bytes.now }
{
    let at = mark_at(bytes, mark)?;
    Some((&bytes[..at], &bytes[at + 1..]))
}

/// The place of the first such byte.
fn mark_at(bytes: &[u8], mark: u8) -> Option<usize>
    ensures place { result ≡ position (λ byte. byte == mark) bytes.now }
    ensures within { IfSome result (λ at. at < length bytes.now) }
{
    bytes.iter().position(|byte| *byte == mark)
}

/// What stands behind this word, where the bytes begin with it.
pub fn strip<'a>(bytes: &'a [u8], word: &[u8]) -> Option<&'a [u8]>
    ensures { option_map (λ x. x.now) result ≡ spec.strip word.now bytes.now }
{
    bytes.strip_prefix(word)
}

/// The number below `limit` of which this is the one spelling: digits, with no zero in front.
fn number_of(text: &[u8], limit: u128) -> Option<u128>
    requires { limit ≤ 2 ^ 127 }
    ensures value { result ≡ spec.number_of limit text.now }
    ensures below { IfSome result (λ number. number < limit) }
{
    if !is_numeral(text) {
        return None;
    }
    let value = value_of(text)?;
    if value < limit { Some(value) } else { None }
}

/// Tells whether the text has digits alone, at least one, and no zero in front of another.
#[tactic(auto, unfolding(crate::specs::Tokens::is_numeral))]
fn is_numeral(text: &[u8]) -> bool
    ensures { result ≡ spec.is_numeral text.now }
{
    match text {
        [] => false,
        [first, rest @ ..] => {
            if *first == b'0' {
                rest.is_empty()
            } else {
                are_digits(text)
            }
        }
    }
}

fn are_digits(text: &[u8]) -> bool
    ensures { result ≡ spec.are_digits text.now }
{
    text.iter().all(|byte| byte.is_ascii_digit())
}

/// The number that the digits write, where it is below 2^128.
fn value_of(text: &[u8]) -> Option<u128>
    requires { spec.are_digits text.now ≡ true }
    ensures { SomeIff result (spec.value_after 0 text.now < 2 ^ 128) (spec.value_after 0 text.now) }
{
    let mut value: u128 = 0;
    for digit in text {
        value = with_digit(value, *digit)?;
    }
    Some(value)
}

/// The number with one digit more, where it is below 2^128.
fn with_digit(value: u128, digit: u8) -> Option<u128>
    requires { 48 ≤ digit }
    ensures { SomeIff result (value * 10 + (digit - 48) < 2 ^ 128) (value * 10 + (digit - 48)) }
{
    value.checked_mul(10)?.checked_add(u128::from(digit - b'0'))
}

/// The whole number of 32 bits of which this is the spelling.
pub fn u32_of(text: &[u8]) -> Option<u32>
    ensures { result ≡ spec.number_of (2 ^ 32) text.now }
{
    let number = number_of(text, 1 << 32)?;
    Some(number as u32)
}

/// The whole number of 64 bits with its sign of which this is the spelling.
pub fn i64_of(text: &[u8]) -> Option<i64>
    ensures { result ≡ spec.signed_of (2 ^ 63 + 1) (2 ^ 63) text.now }
{
    let number = signed_of(text, (1 << 63) + 1, 1 << 63)?;
    Some(number as i64)
}

/// The whole number below 2^127 in size of which this is the spelling.
pub fn i128_of(text: &[u8]) -> Option<i128>
    ensures { result ≡ spec.signed_of (2 ^ 127) (2 ^ 127) text.now }
{
    signed_of(text, 1 << 127, 1 << 127)
}

/// The whole number of which this is the spelling: one behind a minus whose size is below `below`, or one below `above`.
#[tactic(auto, unfolding(crate::specs::Tokens::signed_of))]
fn signed_of(text: &[u8], below: u128, above: u128) -> Option<i128>
    requires below { below ≤ 2 ^ 127 }
    requires above { above ≤ 2 ^ 127 }
    ensures value { result ≡ spec.signed_of below above text.now }
    ensures within { IfSome result (λ number. spec.IsWithin below above number) }
{
    match strip(text, b"-") {
        Some(digits) => negated(number_of(digits, below)?),
        None => Some(number_of(text, above)? as i128),
    }
}

/// The number below zero of this size.
fn negated(size: u128) -> Option<i128>
    requires { size < 2 ^ 127 }
    ensures { result ≡ spec.negated size }
{
    if size == 0 {
        None
    } else {
        Some(-(size as i128))
    }
}

/// The name of these bytes, unless they are none.
pub fn name_of(alloc: Global, text: &[u8]) -> Result<Option<Name>, Memory>
    ensures { IfOk result (λ name. name ≡ spec.name_of text.now) }
{
    let Ok(text) = str::from_utf8(text) else {
        return Ok(None);
    };
    match Name::new(alloc, text) {
        Ok(name) => Ok(Some(name)),
        Err(NameFault::NotName) => Ok(None),
        Err(NameFault::Memory) => Err(Memory),
    }
}
