//! Files in memory.
ghost use Rattle.std.specs.Prelude.{◌≡◌, take, Some, None, IfOk, IfErr, IfSome, IfNone, bytes_eq};
ghost use Rattle.std.specs.List.{list_any};
ghost use Rattle.outside_io.specs.HeldFiles as spec;

use crate::ShelfFault;
use base_kit::{List, Txt};
use std::alloc::Global;

/// A file in memory: its name and its bytes.
#[derive(Debug, Drop)]
pub struct Held {
    pub name: Txt,
    pub bytes: List<u8>,
}

impl Held {
    /// Whether no two of the files have the same name.
    pub fn are_distinct(held: &[Held]) -> bool
        ensures { result ≡ spec.are_distinct held.now }
    {
        for (i, one) in held.iter().enumerate() {
            if is_among(&held[i + 1..], one.name.as_str()) {
                return false;
            }
        }
        true
    }
}

/// Whether one of the files has this name.
fn is_among(held: &[Held], name: &str) -> bool
    ensures { result ≡ list_any (λ one. bytes_eq one.name name.now) held.now }
{
    held.iter().any(|one| one.name.as_str() == name)
}

/// The bytes of the first file of this name.
pub(crate) fn find<'a>(held: &'a [Held], name: &str) -> Option<&'a [u8]>
    ensures some { IfSome result (λ bytes. spec.held_under held.now name.now ≡ Some bytes.now) }
    ensures none { IfNone result (spec.held_under held.now name.now ≡ None) }
{
    for one in held {
        if one.name.as_str() == name {
            return Some(one.bytes.as_slice());
        }
    }
    None
}

/// A copy of the first `max` of these bytes.
pub(crate) fn first(alloc: Global, bytes: &[u8], max: usize) -> Result<Vec<u8>, ShelfFault>
    ensures value { IfOk result (λ copy. copy.items ≡ take max bytes.now) }
    ensures memory { IfErr result (λ fault. fault ≡ ShelfFault.Memory) }
{
    Ok(Vec::from_slice(alloc, &bytes[..max.min(bytes.len())])?)
}
