//! Hashes of rows.
ghost use Rattle.std.specs.Prelude.{◌≡◌};
ghost use Rattle.ip_reduce.specs.Hashes.{mixed, mixed_number, mixed_term, mixed_terms, hash_of};

use ip_rows::{Coef, IpRow};

// A prime, and a factor whose multiples lie spread out below it.
const MODULUS: u64 = 4_294_967_291;

const SPREAD: u64 = 2_654_435_769;

/// The hash of a row.
pub(crate) fn hash(row: &IpRow) -> u32
    ensures { result ≡ hash_of row.now }
{
    mix_number(mix_terms(row.terms.as_slice()), row.least)
}

fn mix_terms(terms: &[Coef]) -> u32
    ensures { result ≡ mixed_terms terms.now }
{
    terms.iter().fold(0, |hash, term| mix_term(hash, term))
}

fn mix_term(hash: u32, term: &Coef) -> u32
    ensures { result ≡ mixed_term hash term.now }
{
    mix_number(mix(hash, term.column), term.factor)
}

#[tactic(auto, unfolding(crate::specs::Hashes::mixed_number))]
fn mix_number(hash: u32, number: i64) -> u32
    ensures { result ≡ mixed_number hash number }
{
    let size = number.unsigned_abs();
    let low = mix(hash, (size % 4_294_967_296) as u32);
    mix(
        mix(low, (size / 4_294_967_296) as u32),
        u32::from(number < 0),
    )
}

#[tactic(auto, unfolding(crate::specs::Hashes::mixed))]
fn mix(hash: u32, word: u32) -> u32
    ensures { result ≡ mixed hash word }
{
    ((u64::from(hash) * SPREAD + u64::from(word)) % MODULUS) as u32
}
