//! Copies of what may not be there.
ghost use Rattle.std.specs.Prelude.{◌≡◌, IfOk};

use base_kit::{Duplicate, Memory};
use std::alloc::Global;

/// A copy of what is there, and nothing where nothing is.
pub fn copy_option<T: Duplicate>(alloc: Global, item: &Option<T>) -> Result<Option<T>, Memory>
    ensures { IfOk result (λ made. made ≡ item.now) }
{
    match item {
        Some(item) => Ok(Some(item.copy(alloc)?)),
        None => Ok(None),
    }
}
