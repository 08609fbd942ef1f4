//! Texts of a bounded length, as they stand in queries and tables.
ghost use Rattle.std.specs.Prelude.{◌≡◌, ◌<◌, ◌≤◌, ◌↔◌, length, IfOk, IsErrOf, nat_eq, refl};
ghost use Rattle.std.specs.Ordering.{nat_cmp, as_partial_cmp};
ghost use Rattle.std.specs.Hash as fed;
ghost use Rattle.std.specs.Cmp.{partial_equiv_from_equiv};
ghost use Rattle.std.specs.Cmp.Lexicographic.{pointwise, slice_cmp, nat_list_eq_equiv, nat_list_cmp_total, bytes_decides, texts_ties, texts_po};

use crate::{Duplicate, Memory};
use std::alloc::Global;
use std::cmp::Ordering;
use std::hash::{Hash, Hasher};
use std::marker::Model;
use thiserror::Error;

/// The most bytes that a text has (docs/LANGUAGE.md).
pub const MOST_TEXT_BYTES: usize = 1000;

/// A UTF-8 text of at most 1,000 bytes. Contracts see it as the list of its bytes, and texts compare by their bytes.
#[derive(Debug, Drop)]
pub struct Txt {
    text: String,
}

impl Model for Txt {
    ghost use Rattle.std.specs.Prelude.{List, ℕ, ◌≤◌, length, string_bytes};

    ghost Value = { List ℕ };

    ghost view = { λ it. string_bytes it.text };

    ghost invariant = { λ it. length (string_bytes it.text) ≤ 1000 };
}

/// Why a text was refused.
#[derive(Clone, Copy, Debug, PartialEq, Eq, Error)]
pub enum TxtFault {
    /// More than 1,000 bytes.
    #[error("the text has more than 1000 bytes")]
    TooLong,
    /// Out of memory.
    #[error("out of memory")]
    Memory,
}

impl Txt {
    /// Makes a text of these bytes; `TooLong` where there are more than 1,000 (docs/LANGUAGE.md).
    pub fn new(alloc: Global, text: &str) -> Result<Txt, TxtFault>
        ensures value { IfOk result (λ made. made ≡ text.now) }
        ensures too_long { IsErrOf result TxtFault.TooLong ↔ (1000 < length text.now) }
    {
        if text.len() > MOST_TEXT_BYTES {
            return Err(TxtFault::TooLong);
        }
        match String::from_str(alloc, text) {
            Ok(text) => Ok(Txt { text }),
            Err(_) => Err(TxtFault::Memory),
        }
    }

    /// The text.
    pub fn as_str(&self) -> &str
        ensures text { result.now ≡ self.now }
        ensures short { length self.now ≤ 1000 }
    {
        self.text.as_str()
    }
}

impl Duplicate for Txt {
    fn copy(&self, alloc: Global) -> Result<Txt, Memory> {
        Ok(Txt {
            text: String::from_str(alloc, self.text.as_str())?,
        })
    }
}

impl PartialEq for Txt {
    ghost eq = { pointwise nat_eq };

    ghost laws = { partial_equiv_from_equiv nat_list_eq_equiv };

    fn eq(&self, other: &Txt) -> bool {
        self.as_str() == other.as_str()
    }
}

impl Eq for Txt {
    ghost laws = { nat_list_eq_equiv };
}

impl PartialOrd for Txt {
    ghost partial_cmp = { as_partial_cmp (slice_cmp nat_cmp) };

    ghost laws = { texts_po };

    fn partial_cmp(&self, other: &Txt) -> Option<Ordering> {
        Some(self.cmp(other))
    }
}

impl Ord for Txt {
    ghost cmp = { slice_cmp nat_cmp };

    ghost total = { nat_list_cmp_total };

    ghost matches_partial_cmp = { λ x y. refl };

    ghost matches_eq = { texts_ties };

    fn cmp(&self, other: &Txt) -> Ordering {
        self.as_str().cmp(other.as_str())
    }
}

impl Hash for Txt {
    ghost hash_input = { fed.str };

    ghost respects_eq = { (fed.same_Alike fed.str bytes_decides).fed };

    fn hash<H: Hasher>(&self, state: &mut H) {
        self.as_str().hash(state);
    }
}
