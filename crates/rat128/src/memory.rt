//! Want of memory.

use std::alloc::{AllocError, AllocFailed};
use thiserror::Error;

/// There was not enough memory for the text of a fraction.
#[derive(Clone, Copy, Debug, PartialEq, Eq, Error)]
#[error("out of memory")]
pub struct RatMemory;

impl From<AllocError> for RatMemory {
    fn from(_fault: AllocError) -> RatMemory {
        RatMemory
    }
}

impl<T: Drop> From<AllocFailed<T>> for RatMemory {
    fn from(_fault: AllocFailed<T>) -> RatMemory {
        RatMemory
    }
}
