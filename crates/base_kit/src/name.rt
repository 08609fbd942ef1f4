//! Names of tables, columns and relations.
ghost use Rattle.std.specs.Prelude.{◌≡◌, ◌↔◌, false, IfOk, OnOk, IsErrOf, IsTrue, nat_eq, refl};
ghost use Rattle.std.specs.List.{list_all};
ghost use Rattle.std.specs.Ordering.{nat_cmp, as_partial_cmp};
ghost use Rattle.std.specs.Hash as fed;
ghost use Rattle.std.specs.Cmp.{partial_equiv_from_equiv};
ghost use Rattle.std.specs.Cmp.Lexicographic.{pointwise, slice_cmp, nat_list_eq_equiv, nat_list_cmp_total, bytes_decides, texts_ties, texts_po};
ghost use Rattle.base_kit.specs.Names as spec;

use crate::{Duplicate, Memory, is_keyword};
use std::alloc::Global;
use std::cmp::Ordering;
use std::hash::{Hash, Hasher};
use std::marker::Model;
use thiserror::Error;

/// The most bytes that a name has (docs/LANGUAGE.md).
pub const MOST_NAME_BYTES: usize = 64;

/// A name: a letter or `_`, then letters, digits or `_`, all ASCII, at most 64 of them, and no reserved word. Contracts
/// see it as the list of its bytes. Case counts, and names compare by their bytes.
#[derive(Debug, Drop)]
pub struct Name {
    text: String,
}

impl Model for Name {
    ghost use Rattle.std.specs.Prelude.{List, ℕ, IsTrue, string_bytes};
    ghost use Rattle.base_kit.specs.Names.{is_name};

    ghost Value = { List ℕ };

    ghost view = { λ it. string_bytes it.text };

    ghost invariant = { λ it. IsTrue (is_name (string_bytes it.text)) };
}

/// Why a name was refused.
#[derive(Clone, Copy, Debug, PartialEq, Eq, Error)]
pub enum NameFault {
    /// Not a name.
    #[error("not a name")]
    NotName,
    /// Out of memory.
    #[error("out of memory")]
    Memory,
}

impl Name {
    /// Makes a name of a text; `NotName` where the text is not a name (docs/LANGUAGE.md).
    pub fn new(alloc: Global, text: &str) -> Result<Name, NameFault>
        ensures value { IfOk result (λ made. made ≡ text.now) }
        ensures is_name { OnOk result (IsTrue (spec.is_name text.now)) }
        ensures not_name { IsErrOf result NameFault.NotName ↔ (spec.is_name text.now ≡ false) }
    {
        if !is_name(text.as_bytes()) {
            return Err(NameFault::NotName);
        }
        match String::from_str(alloc, text) {
            Ok(text) => Ok(Name { text }),
            Err(_) => Err(NameFault::Memory),
        }
    }

    /// The name's text.
    pub fn as_str(&self) -> &str
        ensures text { result.now ≡ self.now }
        ensures is_name { IsTrue (spec.is_name self.now) }
    {
        self.text.as_str()
    }
}

/// Whether these bytes are a name (docs/LANGUAGE.md).
#[tactic(auto, unfolding(crate::specs::Names::is_name))]
pub fn is_name(text: &[u8]) -> bool
    ensures { result ≡ spec.is_name text.now }
{
    is_word(text) && text.len() <= MOST_NAME_BYTES && !is_keyword(text)
}

/// Whether a name may begin with this byte: a letter or `_`.
pub fn starts_name(byte: u8) -> bool
    ensures { result ≡ spec.starts_name byte }
{
    byte.is_ascii_alphabetic() || byte == b'_'
}

/// Whether a name may go on with this byte: a letter, a digit or `_`.
pub fn continues_name(byte: u8) -> bool
    ensures { result ≡ spec.continues_name byte }
{
    byte.is_ascii_alphanumeric() || byte == b'_'
}

fn is_word(text: &[u8]) -> bool
    ensures { result ≡ spec.is_word text.now }
{
    match text {
        [] => false,
        [first, rest @ ..] => starts_name(*first) && all_continue(rest),
    }
}

fn all_continue(text: &[u8]) -> bool
    ensures { result ≡ list_all spec.continues_name text.now }
{
    text.iter().all(|byte| continues_name(*byte))
}

impl Duplicate for Name {
    fn copy(&self, alloc: Global) -> Result<Name, Memory> {
        Ok(Name {
            text: String::from_str(alloc, self.text.as_str())?,
        })
    }
}

impl PartialEq for Name {
    ghost eq = { pointwise nat_eq };

    ghost laws = { partial_equiv_from_equiv nat_list_eq_equiv };

    fn eq(&self, other: &Name) -> bool {
        self.as_str() == other.as_str()
    }
}

impl Eq for Name {
    ghost laws = { nat_list_eq_equiv };
}

impl PartialOrd for Name {
    ghost partial_cmp = { as_partial_cmp (slice_cmp nat_cmp) };

    ghost laws = { texts_po };

    fn partial_cmp(&self, other: &Name) -> Option<Ordering> {
        Some(self.cmp(other))
    }
}

impl Ord for Name {
    ghost cmp = { slice_cmp nat_cmp };

    ghost total = { nat_list_cmp_total };

    ghost matches_partial_cmp = { λ x y. refl };

    ghost matches_eq = { texts_ties };

    fn cmp(&self, other: &Name) -> Ordering {
        self.as_str().cmp(other.as_str())
    }
}

impl Hash for Name {
    ghost hash_input = { fed.str };

    ghost respects_eq = { (fed.same_Alike fed.str bytes_decides).fed };

    fn hash<H: Hasher>(&self, state: &mut H) {
        self.as_str().hash(state);
    }
}
