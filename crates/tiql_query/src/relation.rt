//! Tables and hypothetical tables.

use crate::condition::Cond;
use crate::expression::Expr;
use crate::optional::copy_option;
use base_kit::{Duplicate, List, Memory, Name};
use std::alloc::Global;

/// A relation, by its kind and its number among the query's relations of that kind, from 0.
#[derive(Clone, Copy, Debug, PartialEq, Eq)]
pub enum Source {
    /// A table.
    Table(u32),
    /// A hypothetical table.
    Hypo(u32),
    /// A view.
    View(u32),
}

/// A column of a relation.
#[derive(Debug, Drop)]
pub struct Column {
    /// Its name.
    pub name: Name,
    /// Whether texts stand in it, and not whole numbers.
    pub text: bool,
    /// Whether what stands in it may differ from world to world (docs/LANGUAGE.md, "Soundness").
    pub unknown: bool,
}

/// A table.
#[derive(Debug, Drop)]
pub struct QTable {
    /// Its name, under which its file stands.
    pub name: Name,
    /// Its columns, all of them fixed.
    pub columns: List<Column>,
    /// The numbers of the columns of its KEY, none where it has no KEY.
    pub key: List<u32>,
}

/// A set column of a hypothetical table: one whose numbers are chosen.
#[derive(Debug, Drop)]
pub struct QBound {
    /// The column's number.
    pub column: u32,
    /// The least number that may be chosen, over a row of the table.
    pub lo: Expr,
    /// The greatest number that may be chosen, over a row of the table.
    pub hi: Expr,
}

/// A hypothetical table.
#[derive(Debug, Drop)]
pub struct QHypo {
    /// Its name.
    pub name: Name,
    /// The number of the table whose rows it takes.
    pub table: u32,
    /// The table's columns, of which the set ones are unknown.
    pub columns: List<Column>,
    /// The set columns, in the order of the text.
    pub set: List<QBound>,
    /// Which rows may change; all of them where there is no condition.
    pub filter: Option<Cond>,
    /// Whether a row that may change may also be left out.
    pub droppable: bool,
}

impl Duplicate for Source {
    fn copy(&self, _alloc: Global) -> Result<Source, Memory> {
        Ok(*self)
    }
}

impl Duplicate for Column {
    fn copy(&self, alloc: Global) -> Result<Column, Memory> {
        Ok(Column {
            name: self.name.copy(alloc)?,
            text: self.text,
            unknown: self.unknown,
        })
    }
}

impl Duplicate for QTable {
    fn copy(&self, alloc: Global) -> Result<QTable, Memory> {
        Ok(QTable {
            name: self.name.copy(alloc)?,
            columns: self.columns.copy(alloc)?,
            key: self.key.copy(alloc)?,
        })
    }
}

impl Duplicate for QBound {
    fn copy(&self, alloc: Global) -> Result<QBound, Memory> {
        Ok(QBound {
            column: self.column,
            lo: self.lo.copy(alloc)?,
            hi: self.hi.copy(alloc)?,
        })
    }
}

impl Duplicate for QHypo {
    fn copy(&self, alloc: Global) -> Result<QHypo, Memory> {
        Ok(QHypo {
            name: self.name.copy(alloc)?,
            table: self.table,
            columns: self.columns.copy(alloc)?,
            set: self.set.copy(alloc)?,
            filter: copy_option(alloc, &self.filter)?,
            droppable: self.droppable,
        })
    }
}
