//! Hashes of parts.
ghost use Rattle.std.specs.Prelude.{◌≡◌, fold};
ghost use Rattle.prov_arena.specs.Formulas.{formula};
ghost use Rattle.prov_arena.specs.Hashes.{mixed, mixed_number, mixed_term, mixed_pair, hash_of};

use crate::words::spell;
use crate::{Pair, Part, Term};

// A prime, and a factor whose multiples lie spread out below it.
const MODULUS: u64 = 4_294_967_291;

const SPREAD: u64 = 2_654_435_769;

#[tactic(auto, unfolding(crate::specs::Hashes::mixed))]
fn mix(hash: u32, word: u32) -> u32
    ensures { result ≡ mixed hash word }
{
    ((u64::from(hash) * SPREAD + u64::from(word)) % MODULUS) as u32
}

#[tactic(auto, unfolding(crate::specs::Hashes::mixed_number))]
fn mix_number(hash: u32, number: i64) -> u32
    ensures { result ≡ mixed_number hash number }
{
    let size = number.unsigned_abs() % MODULUS;
    let word = if number < 0 { MODULUS - size } else { size };
    mix(hash, word as u32)
}

#[tactic(auto, unfolding(crate::specs::Hashes::mixed_term))]
fn mix_term(hash: u32, term: Term) -> u32
    ensures { result ≡ mixed_term hash term }
{
    mix(mix_number(hash, term.factor), term.node)
}

#[tactic(auto, unfolding(crate::specs::Hashes::mixed_pair))]
fn mix_pair(hash: u32, pair: Pair) -> u32
    ensures { result ≡ mixed_pair hash pair }
{
    mix(mix(hash, pair.truth), pair.number)
}

fn mix_kids(hash: u32, kids: &[u32]) -> u32
    ensures { result ≡ fold mixed hash kids.now }
{
    kids.iter().fold(hash, |hash, kid| mix(hash, *kid))
}

fn mix_terms(hash: u32, terms: &[Term]) -> u32
    ensures { result ≡ fold mixed_term hash terms.now }
{
    terms.iter().fold(hash, |hash, term| mix_term(hash, *term))
}

fn mix_pairs(hash: u32, pairs: &[Pair]) -> u32
    ensures { result ≡ fold mixed_pair hash pairs.now }
{
    pairs.iter().fold(hash, |hash, pair| mix_pair(hash, *pair))
}

/// The hash of a part: of its kind and all that it names.
#[tactic(auto, unfolding(crate::specs::Hashes::hash_of, crate::specs::Hashes::hash_of_words))]
pub(crate) fn hash(part: Part<'_>) -> u32
    ensures { result ≡ hash_of (formula part.entry) }
{
    let words = spell(part);
    let begun = mix_number(words.kind, words.number);
    let named = mix(mix(begun, words.left), words.right);
    let listed = mix_terms(mix_kids(named, words.kids), words.terms);
    mix_pairs(listed, words.pairs)
}
