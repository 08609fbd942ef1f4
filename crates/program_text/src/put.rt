//! Bytes and numbers behind what was written.
ghost use Rattle.std.specs.Prelude.{◌≡◌, ◌++◌, OnOk, decimal};
ghost use Rattle.std.specs.Fmt.{signed_decimal};
ghost use Rattle.program_text.specs.Text as spec;

use base_kit::Memory;
use itoa::Buffer;

/// Appends the bytes.
pub(crate) fn put(out: &mut Vec<u8>, bytes: &[u8]) -> Result<(), Memory>
    ensures { OnOk result (out.new.items ≡ out.old.items ++ bytes.now) }
{
    Ok(out.extend_from_slice(bytes)?)
}

/// Appends a number that counts or names something.
pub(crate) fn put_count(out: &mut Vec<u8>, count: u64) -> Result<(), Memory>
    ensures { OnOk result (out.new.items ≡ out.old.items ++ decimal count) }
{
    let mut buffer = Buffer::new();
    put(out, buffer.format(count).as_bytes())
}

/// Appends a number of either sign.
pub(crate) fn put_number(out: &mut Vec<u8>, number: i64) -> Result<(), Memory>
    ensures { OnOk result (out.new.items ≡ out.old.items ++ signed_decimal number) }
{
    let mut buffer = Buffer::new();
    put(out, buffer.format(number).as_bytes())
}

/// Appends the line before things of one kind: what they are, and how many.
#[tactic(auto, unfolding(crate::specs::Text::heading))]
pub(crate) fn put_heading(out: &mut Vec<u8>, word: &[u8], count: usize) -> Result<(), Memory>
    ensures { OnOk result (out.new.items ≡ out.old.items ++ spec.heading word.now count) }
{
    put(out, word)?;
    put(out, b" ")?;
    put_count(out, count as u64)?;
    put(out, b"\n")
}

/// Appends a place or a number of a column behind a space.
#[tactic(auto, unfolding(crate::specs::Text::place))]
pub(crate) fn put_place(out: &mut Vec<u8>, place: u32) -> Result<(), Memory>
    ensures { OnOk result (out.new.items ≡ out.old.items ++ spec.place place) }
{
    put(out, b" ")?;
    put_count(out, u64::from(place))
}

/// Appends a factor times what stands in a place, behind a space.
#[tactic(auto, unfolding(crate::specs::Text::product))]
pub(crate) fn put_product(out: &mut Vec<u8>, factor: i64, place: u32) -> Result<(), Memory>
    ensures { OnOk result (out.new.items ≡ out.old.items ++ spec.product factor place) }
{
    put(out, b" ")?;
    put_number(out, factor)?;
    put(out, b"*")?;
    put_count(out, u64::from(place))
}
