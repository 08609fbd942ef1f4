//! Views and their selects.

use crate::condition::Cond;
use crate::expression::{At, Expr};
use crate::optional::copy_option;
use crate::relation::{Column, Source};
use base_kit::{Duplicate, List, Memory, Name};
use std::alloc::Global;

/// What a select makes a column of.
#[derive(Debug, Drop)]
pub enum Item {
    /// An expression.
    Plain(Expr),
    /// SUM of a number over a group.
    Sum(Expr),
    /// COUNT of a group.
    Count,
    /// MIN of a number over a group.
    Min(Expr),
    /// MAX of a number over a group.
    Max(Expr),
}

/// One select of a view.
#[derive(Debug, Drop)]
pub struct Select {
    /// Whether equal rows are listed once.
    pub distinct: bool,
    /// The relations behind FROM.
    pub sources: List<Source>,
    /// The condition behind WHERE.
    pub filter: Option<Cond>,
    /// The columns behind GROUP BY, none where only an aggregate groups the rows, and `None` where the select is plain.
    pub group: Option<List<At>>,
    /// What the columns are made of.
    pub items: List<Item>,
}

/// A view.
#[derive(Debug, Drop)]
pub struct QView {
    /// Its name.
    pub name: Name,
    /// Its columns, by the names of its first select.
    pub columns: List<Column>,
    /// The selects between UNION ALL.
    pub arms: List<Select>,
}

impl Duplicate for Item {
    fn copy(&self, alloc: Global) -> Result<Item, Memory> {
        match self {
            Item::Plain(part) => Ok(Item::Plain(part.copy(alloc)?)),
            Item::Sum(part) => Ok(Item::Sum(part.copy(alloc)?)),
            Item::Count => Ok(Item::Count),
            Item::Min(part) => Ok(Item::Min(part.copy(alloc)?)),
            Item::Max(part) => Ok(Item::Max(part.copy(alloc)?)),
        }
    }
}

impl Duplicate for Select {
    fn copy(&self, alloc: Global) -> Result<Select, Memory> {
        Ok(Select {
            distinct: self.distinct,
            sources: self.sources.copy(alloc)?,
            filter: copy_option(alloc, &self.filter)?,
            group: copy_option(alloc, &self.group)?,
            items: self.items.copy(alloc)?,
        })
    }
}

impl Duplicate for QView {
    fn copy(&self, alloc: Global) -> Result<QView, Memory> {
        Ok(QView {
            name: self.name.copy(alloc)?,
            columns: self.columns.copy(alloc)?,
            arms: self.arms.copy(alloc)?,
        })
    }
}
