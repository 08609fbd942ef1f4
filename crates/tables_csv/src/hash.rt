//! Hashes of the keys of rows.
ghost use Rattle.std.specs.Prelude.{◌≡◌, fold, option_copied};
ghost use Rattle.tables_csv.specs.Hashes.{mixed, mixed_number, mixed_text, mixed_entry, hash_of};
ghost use Rattle.tiql_query.specs.Keys.{key_of};

use base_kit::{Row, Value};

// A prime, and a factor whose multiples lie spread out below it.
const MODULUS: u64 = 4_294_967_291;

const SPREAD: u64 = 2_654_435_769;

// What stands before the bytes of a text.
const TEXT: u32 = 256;

#[tactic(auto, unfolding(crate::specs::Hashes::mixed))]
fn mix(hash: u32, word: u32) -> u32
    ensures { result ≡ mixed hash word }
{
    ((u64::from(hash) * SPREAD + u64::from(word)) % MODULUS) as u32
}

#[tactic(auto, unfolding(crate::specs::Hashes::mixed_number))]
fn mix_number(hash: u32, number: i64) -> u32
    ensures { result ≡ mixed_number hash number }
{
    let size = number.unsigned_abs();
    mix(
        mix(hash, (size % 4_294_967_296) as u32),
        (size / 4_294_967_296) as u32,
    )
}

#[tactic(auto, unfolding(crate::specs::Hashes::mixed_text))]
fn mix_text(hash: u32, text: &[u8]) -> u32
    ensures { result ≡ mixed_text hash text.now }
{
    text.iter()
        .fold(mix(hash, TEXT), |hash, byte| mix(hash, u32::from(*byte)))
}

fn mix_entry(hash: u32, entry: Option<&Value>) -> u32
    ensures { result ≡ mixed_entry hash (option_copied entry.entry) }
{
    match entry {
        None => hash,
        Some(Value::Int(number)) => mix_number(hash, *number),
        Some(Value::Text(text)) => mix_text(hash, text.as_str().as_bytes()),
    }
}

/// The hash of a row's key.
pub(crate) fn hash(key: &[u32], row: &Row) -> u32
    ensures { result ≡ hash_of (key_of key.now row.now) }
{
    let mut hash = 0;
    for column in key {
        hash = mix_entry(hash, row.get(*column as usize));
    }
    hash
}
