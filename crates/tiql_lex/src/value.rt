//! The values of numbers and of texts in quotes.
ghost use Rattle.std.specs.Prelude.{◌≡◌, ◌^◌, ◌&&◌, pos, nat_le, false, List, ℕ, [], IfOk, IfSome, IfNone, if◌then◌else◌};
ghost use Rattle.std.specs.Option.{option_map};
ghost use Rattle.std.specs.Char.{is_ascii_digit};
ghost use Rattle.std.specs.List.{list_all};
ghost use Rattle.std.specs.Str.Parse.{digits_value};
ghost use Rattle.tiql_lex.specs.Kinds.{is_number, quoted};
ghost use Rattle.tiql_lex.specs.Scan as scan;

use base_kit::Memory;
use std::alloc::Global;

// The greatest number (docs/LANGUAGE.md, "Numbers").
const MOST_NUMBER: u64 = 1_000_000_000_000_000;

/// Parses a number: one or more digits, with a value of at most 10^15. `None` for anything else.
pub fn number_value(text: &[u8]) -> Option<i64>
    ensures { result ≡ (if is_number text.now then Some (pos (digits_value 10 text.now)) else None) }
{
    if text.is_empty() {
        return None;
    }
    let value = value_of(text)?;
    Some(value as i64)
}

// The value of digits; `None` where a byte is not a digit, or the value is above the greatest number.
fn value_of(text: &[u8]) -> Option<u64>
    ensures { result ≡ (if list_all is_ascii_digit text.now && nat_le (digits_value 10 text.now) (10 ^ 15)
        then Some (digits_value 10 text.now) else None) }
{
    let mut value = 0;
    for byte in text {
        if !byte.is_ascii_digit() {
            return None;
        }
        value = value * 10 + u64::from(*byte - b'0');
        if value > MOST_NUMBER {
            return None;
        }
    }
    Some(value)
}

/// The value of a text in quotes: a quote, the value with each of its quotes written twice, and a quote. `None` for anything
/// else.
pub fn text_value(alloc: Global, text: &[u8]) -> Result<Option<Vec<u8>>, Memory>
    ensures some { IfOk result (λ found. IfSome found (λ value. text.now ≡ quoted value.items)) }
    ensures none { IfOk result (λ found. IfNone found ((value : List ℕ) → text.now ≡ quoted value → ⊥)) }
{
    let [first, rest @ ..] = text else {
        return Ok(None);
    };
    if *first != b'\'' {
        return Ok(None);
    }
    value_behind(alloc, rest)
}

// The value of a text, behind the quote that opens it.
fn value_behind(alloc: Global, bytes: &[u8]) -> Result<Option<Vec<u8>>, Memory>
    ensures { IfOk result (λ found. option_map (λ value. value.items) found ≡ scan.value_from [] false bytes.now) }
{
    let mut value = Vec::new(alloc);
    let mut ended = false;
    for byte in bytes {
        let quote = *byte == b'\'';
        if ended && !quote {
            return Ok(None);
        }
        if ended || !quote {
            value.push(*byte)?;
        }
        ended = quote && !ended;
    }
    Ok(if ended { Some(value) } else { None })
}
