//! Copies that are equal to what they copy.
ghost use Rattle.std.specs.Prelude.{◌≡◌, IfOk};

use crate::{List, Memory};
use std::alloc::Global;

/// A type whose values can be copied where there is memory.
pub trait Duplicate: Drop {
    /// A copy that is equal to this value.
    fn copy(&self, alloc: Global) -> Result<Self, Memory>
        ensures { IfOk result (λ made. made ≡ self.now) };
}

/// A list of copies of these items, in their order.
pub fn copy_list<T: Duplicate>(alloc: Global, items: &[T]) -> Result<List<T>, Memory>
    ensures { IfOk result (λ made. made ≡ items.now) }
{
    let mut made = List::from_vec(Vec::with_capacity(alloc, items.len())?);
    for item in items {
        made.push(item.copy(alloc)?)?;
    }
    Ok(made)
}

impl<T: Duplicate> Duplicate for List<T> {
    fn copy(&self, alloc: Global) -> Result<List<T>, Memory> {
        copy_list(alloc, self.as_slice())
    }
}

impl Duplicate for u8 {
    fn copy(&self, _alloc: Global) -> Result<u8, Memory> {
        Ok(*self)
    }
}

impl Duplicate for u32 {
    fn copy(&self, _alloc: Global) -> Result<u32, Memory> {
        Ok(*self)
    }
}

impl Duplicate for i64 {
    fn copy(&self, _alloc: Global) -> Result<i64, Memory> {
        Ok(*self)
    }
}
