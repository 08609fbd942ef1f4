//! A whole query.
ghost use Rattle.std.specs.Prelude.{◌≡◌, ◌↔◌, IfSome, None, map, length, ◌≤◌};
ghost use Rattle.tiql_query.specs.Names.{IsFirst, HasNone};

use crate::aim::{Aim, Require};
use crate::relation::{QHypo, QTable};
use crate::view::QView;
use base_kit::{Duplicate, List, Memory};
use std::alloc::Global;

/// A query. Its relations are numbered by kind, in the order of the text, and a relation stands on earlier ones alone.
#[derive(Debug, Drop)]
pub struct Query {
    /// Its tables.
    pub tables: List<QTable>,
    /// Its hypothetical tables.
    pub hypos: List<QHypo>,
    /// Its views.
    pub views: List<QView>,
    /// What a world has to meet, in the order of the text.
    pub requires_: List<Require>,
    /// What a world is to be good for.
    pub aim: Aim,
}

impl Query {
    /// The number of the first table of this name, and `None` exactly where none has it. No text has 2^32 tables.
    pub fn find_table(&self, name: &str) -> Option<u32>
        ensures first { IfSome result (λ n. IsFirst name.now (map (λ table. table.name) self.now.tables) n) }
        ensures none { length self.now.tables ≤ 4294967296 → (result ≡ None) ↔ HasNone name.now (map (λ table. table.name) self.now.tables) }
    {
        let mut number: u32 = 0;
        for table in self.tables.as_slice() {
            if table.name.as_str() == name {
                return Some(number);
            }
            number = number.checked_add(1)?;
        }
        None
    }

    /// The number of the first hypothetical table of this name, and `None` exactly where none has it. No text has 2^32 hypothetical tables.
    pub fn find_hypo(&self, name: &str) -> Option<u32>
        ensures first { IfSome result (λ n. IsFirst name.now (map (λ hypo. hypo.name) self.now.hypos) n) }
        ensures none { length self.now.hypos ≤ 4294967296 → (result ≡ None) ↔ HasNone name.now (map (λ hypo. hypo.name) self.now.hypos) }
    {
        let mut number: u32 = 0;
        for hypo in self.hypos.as_slice() {
            if hypo.name.as_str() == name {
                return Some(number);
            }
            number = number.checked_add(1)?;
        }
        None
    }

    /// The number of the first view of this name, and `None` exactly where none has it. No text has 2^32 views.
    pub fn find_view(&self, name: &str) -> Option<u32>
        ensures first { IfSome result (λ n. IsFirst name.now (map (λ view. view.name) self.now.views) n) }
        ensures none { length self.now.views ≤ 4294967296 → (result ≡ None) ↔ HasNone name.now (map (λ view. view.name) self.now.views) }
    {
        let mut number: u32 = 0;
        for view in self.views.as_slice() {
            if view.name.as_str() == name {
                return Some(number);
            }
            number = number.checked_add(1)?;
        }
        None
    }
}

impl Duplicate for Query {
    fn copy(&self, alloc: Global) -> Result<Query, Memory> {
        Ok(Query {
            tables: self.tables.copy(alloc)?,
            hypos: self.hypos.copy(alloc)?,
            views: self.views.copy(alloc)?,
            requires_: self.requires_.copy(alloc)?,
            aim: self.aim.copy(alloc)?,
        })
    }
}
