//! Want of memory.

use std::alloc::{AllocError, AllocFailed};
use thiserror::Error;

/// There was not enough memory for a part or for its place in the list.
#[derive(Clone, Copy, Debug, PartialEq, Eq, Error)]
#[error("out of memory")]
pub struct ArenaMemory;

impl From<AllocError> for ArenaMemory {
    fn from(_fault: AllocError) -> ArenaMemory {
        ArenaMemory
    }
}

impl<T: Drop> From<AllocFailed<T>> for ArenaMemory {
    fn from(_fault: AllocFailed<T>) -> ArenaMemory {
        ArenaMemory
    }
}
