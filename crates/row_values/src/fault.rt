//! Why a value was refused.

use thiserror::Error;

/// A value passes 10^17 in size (docs/MEANING.md, "The number told").
#[derive(Clone, Copy, Debug, PartialEq, Eq, Error)]
#[error("a value passes 10^17 in size")]
pub struct Wide {
    /// The first asked value that passes; of a product its first partial product from the left that does.
    pub number: i128,
}
