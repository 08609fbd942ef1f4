//! Reads what is one word.
ghost use Rattle.std.specs.Prelude.{◌≡◌, IfOk, option_map};
ghost use Rattle.tiql_read.specs.Outcomes.{ReadsAs, ReadsTo};
ghost use Rattle.tiql_read.specs.Steps as spec;

use crate::word::{Reading, Seen, Stop};
use base_kit::{Memory, Name, NameFault, Place};
use std::alloc::Global;
use tiql_lex::TokenKind;
use tiql_tree::Spot;

/// Whether the two kinds are the same.
pub fn is_kind(one: TokenKind, other: TokenKind) -> bool
    ensures { result ≡ spec.is_kind one other }
{
    one == other
}

/// Whether the word is this reserved word.
#[tactic(auto, unfolding(crate::specs::Steps::is_key))]
pub fn is_key(seen: &Seen, text: &[u8]) -> bool
    ensures { result ≡ spec.is_key text.now (spec.word_of seen.now) }
{
    is_kind(TokenKind::Keyword, seen.kind) && seen.text.as_slice() == text
}

/// Whether the word is this sign.
#[tactic(auto, unfolding(crate::specs::Steps::is_sign))]
pub fn is_sign(seen: &Seen, text: &[u8]) -> bool
    ensures { result ≡ spec.is_sign text.now (spec.word_of seen.now) }
{
    is_kind(TokenKind::Sign, seen.kind) && seen.text.as_slice() == text
}

/// Whether this reserved word stands here.
pub fn begins_key(words: &[Seen], text: &[u8]) -> bool
    ensures { result ≡ spec.begins (spec.is_key text.now) words.now }
{
    match words {
        [first, ..] => is_key(first, text),
        [] => false,
    }
}

/// Whether this sign stands here.
pub fn begins_sign(words: &[Seen], text: &[u8]) -> bool
    ensures { result ≡ spec.begins (spec.is_sign text.now) words.now }
{
    match words {
        [first, ..] => is_sign(first, text),
        [] => false,
    }
}

/// The words behind this sign, where it stands here.
pub fn after_sign<'a>(words: &'a [Seen], text: &[u8]) -> Option<&'a [Seen]>
    ensures { option_map (λ rest. rest.now) result ≡ spec.behind (spec.is_sign text.now) words.now }
{
    let [first, rest @ ..] = words else {
        return None;
    };
    if is_sign(first, text) {
        Some(rest)
    } else {
        None
    }
}

/// The words behind this reserved word, where it stands here.
pub fn after_key<'a>(words: &'a [Seen], text: &[u8]) -> Option<&'a [Seen]>
    ensures { option_map (λ rest. rest.now) result ≡ spec.behind (spec.is_key text.now) words.now }
{
    let [first, rest @ ..] = words else {
        return None;
    };
    if is_key(first, text) {
        Some(rest)
    } else {
        None
    }
}

/// The words behind this reserved word, which must stand here.
#[tactic(auto, unfolding(crate::specs::Steps::need))]
pub fn key<'a>(words: &'a [Seen], text: &[u8]) -> Result<&'a [Seen], Stop>
    ensures { ReadsTo result (spec.need (spec.is_key text.now) words.now) }
{
    match after_key(words, text) {
        Some(rest) => Ok(rest),
        None => Err(Stop::Wrong(words.len())),
    }
}

/// The words behind this sign, which must stand here.
#[tactic(auto, unfolding(crate::specs::Steps::need))]
pub fn sign<'a>(words: &'a [Seen], text: &[u8]) -> Result<&'a [Seen], Stop>
    ensures { ReadsTo result (spec.need (spec.is_sign text.now) words.now) }
{
    match after_sign(words, text) {
        Some(rest) => Ok(rest),
        None => Err(Stop::Wrong(words.len())),
    }
}

/// The value of the first of the words with the rest of them, or the first word is wrong.
pub fn told<'a, T>(words: &'a [Seen], value: Option<T>, rest: &'a [Seen]) -> Reading<'a, T>
    ensures { ReadsAs result (spec.told words.now (spec.with_rest rest.now value)) }
{
    match value {
        Some(value) => Ok((value, rest)),
        None => Err(Stop::Wrong(words.len())),
    }
}

/// The place of this reserved word, which must stand here.
#[tactic(auto, unfolding(crate::specs::Steps::mark_at, crate::specs::Steps::take_as))]
pub fn mark_key<'a>(words: &'a [Seen], text: &[u8]) -> Reading<'a, Place>
    ensures { ReadsAs result (spec.mark_at (spec.is_key text.now) words.now) }
{
    let [first, rest @ ..] = words else {
        return Err(Stop::Wrong(0));
    };
    if is_key(first, text) {
        Ok((first.place, rest))
    } else {
        Err(Stop::Wrong(words.len()))
    }
}

/// The place of this sign, which must stand here.
#[tactic(auto, unfolding(crate::specs::Steps::mark_at, crate::specs::Steps::take_as))]
pub fn mark_sign<'a>(words: &'a [Seen], text: &[u8]) -> Reading<'a, Place>
    ensures { ReadsAs result (spec.mark_at (spec.is_sign text.now) words.now) }
{
    let [first, rest @ ..] = words else {
        return Err(Stop::Wrong(0));
    };
    if is_sign(first, text) {
        Ok((first.place, rest))
    } else {
        Err(Stop::Wrong(words.len()))
    }
}

/// A name.
#[tactic(auto, unfolding(crate::specs::Steps::spot_at, crate::specs::Steps::take_as))]
pub fn name(alloc: Global, words: &[Seen]) -> Reading<'_, Spot>
    ensures { ReadsAs result (spec.spot_at words.now) }
{
    let [first, rest @ ..] = words else {
        return Err(Stop::Wrong(0));
    };
    told(words, spot_of(alloc, first)?, rest)
}

// The name that the word is, with its place.
#[tactic(auto, unfolding(crate::specs::Steps::spot_of, crate::specs::Steps::is_named))]
fn spot_of(alloc: Global, seen: &Seen) -> Result<Option<Spot>, Memory>
    ensures { IfOk result (λ spot. spot ≡ spec.spot_of seen.now) }
{
    if !is_kind(TokenKind::Name, seen.kind) {
        return Ok(None);
    }
    let Ok(text) = str::from_utf8(seen.text.as_slice()) else {
        return Ok(None);
    };
    match Name::new(alloc, text) {
        Ok(name) => Ok(Some(Spot {
            name,
            place: seen.place,
        })),
        Err(NameFault::NotName) => Ok(None),
        Err(NameFault::Memory) => Err(Memory),
    }
}
