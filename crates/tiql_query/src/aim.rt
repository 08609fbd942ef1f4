//! What a world has to meet, and what it is to be good for.

use crate::condition::Cond;
use crate::expression::Expr;
use crate::relation::Source;
use base_kit::{Duplicate, Memory};
use std::alloc::Global;

/// A requirement on a relation.
#[derive(Debug, Drop)]
pub enum Require {
    /// Every row of it meets the condition.
    All(Source, Cond),
    /// At least one row of it meets the condition.
    Some(Source, Cond),
    /// It has no row.
    None(Source),
}

/// What a world is to be good for.
#[derive(Debug, Drop)]
pub enum Aim {
    /// Any world will do.
    Find,
    /// The sum of an expression over the rows of a relation.
    Sum {
        /// Whether the greatest sum is best, and not the least.
        maximize: bool,
        /// The relation.
        source: Source,
        /// The number that each row brings.
        part: Expr,
    },
}

impl Duplicate for Require {
    fn copy(&self, alloc: Global) -> Result<Require, Memory> {
        match self {
            Require::All(source, test) => Ok(Require::All(*source, test.copy(alloc)?)),
            Require::Some(source, test) => Ok(Require::Some(*source, test.copy(alloc)?)),
            Require::None(source) => Ok(Require::None(*source)),
        }
    }
}

impl Duplicate for Aim {
    fn copy(&self, alloc: Global) -> Result<Aim, Memory> {
        match self {
            Aim::Find => Ok(Aim::Find),
            Aim::Sum {
                maximize,
                source,
                part,
            } => Ok(Aim::Sum {
                maximize: *maximize,
                source: *source,
                part: part.copy(alloc)?,
            }),
        }
    }
}
