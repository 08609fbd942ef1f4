//! The declarations that were checked.
ghost use Rattle.std.specs.Prelude.{◌≡◌, OnOk};
ghost use Rattle.tiql_check.specs.Known as spec;

use crate::SoundFault;
use crate::number::number_of;
use base_kit::{Duplicate, List, Memory, Name};
use std::alloc::Global;
use tiql_query::{Aim, Column, QHypo, QTable, QView, Query, Require, Source};
use tiql_tree::Spot;

/// A relation by its name.
#[derive(Debug, Drop)]
pub struct Relation {
    /// Its name.
    pub name: Name,
    /// Its kind, and its number among the relations of that kind.
    pub source: Source,
}

/// The declarations that were checked.
#[derive(Debug, Drop)]
pub struct Known {
    /// Their relations, which share one set of names.
    pub relations: List<Relation>,
    /// The query so far, with any aim.
    pub query: Query,
}

/// Before the first declaration.
pub fn nothing(alloc: Global) -> Known
    ensures { result ≡ spec.nothing }
{
    Known {
        relations: List::new(alloc),
        query: Query {
            tables: List::new(alloc),
            hypos: List::new(alloc),
            views: List::new(alloc),
            requires_: List::new(alloc),
            aim: Aim::Find,
        },
    }
}

/// The relation of this name, if there is one.
#[tactic(auto, unfolding(crate::specs::Known::relation_named))]
pub fn find_relation(relations: &[Relation], name: &Name) -> Option<Source>
    ensures { result ≡ spec.relation_named name.now relations.now }
{
    for relation in relations {
        if relation.name == *name {
            return Some(relation.source);
        }
    }
    None
}

/// The relation of this name, which has to be declared.
pub fn declared(known: &Known, spot: &Spot) -> Result<Source, SoundFault>
    ensures { result ≡ spec.declared known.now spot.now }
{
    match find_relation(known.relations.as_slice(), &spot.name) {
        None => Err(SoundFault::UnknownName(spot.place)),
        Some(source) => Ok(source),
    }
}

/// Whether a relation has this name already.
pub fn is_taken(known: &Known, spot: &Spot) -> bool
    ensures { result ≡ spec.is_taken known.now spot.now }
{
    known
        .relations
        .as_slice()
        .iter()
        .any(|relation| relation.name == spot.name)
}

/// The columns of a declared relation.
#[tactic(auto, unfolding(crate::specs::Known::columns_in, tiql_query::specs::WellFormed::columns_of))]
pub fn columns_in(known: &Known, source: Source) -> &[Column]
    ensures { result.now ≡ spec.columns_in known.now source }
{
    match source {
        Source::Table(number) => match known.query.tables.get(number as usize) {
            Some(table) => table.columns.as_slice(),
            None => &[],
        },
        Source::Hypo(number) => match known.query.hypos.get(number as usize) {
            Some(hypo) => hypo.columns.as_slice(),
            None => &[],
        },
        Source::View(number) => match known.query.views.get(number as usize) {
            Some(view) => view.columns.as_slice(),
            None => &[],
        },
    }
}

// Names a relation.
fn add_relation(alloc: Global, known: &mut Known, name: &Name, source: Source) -> Result<(), Memory>
    ensures relation { OnOk result (known.new ≡ record known.old { relations = spec.with_relation known.old name.now source }) }
{
    known.relations.push(Relation {
        name: name.copy(alloc)?,
        source,
    })?;
    Ok(())
}

/// Adds a table behind the others.
pub fn add_table(alloc: Global, known: &mut Known, table: QTable) -> Result<(), Memory>
    ensures table { OnOk result (known.new ≡ spec.with_table known.old table) }
{
    let source = Source::Table(number_of(known.query.tables.len())?);
    add_relation(alloc, known, &table.name, source)?;
    known.query.tables.push(table)?;
    Ok(())
}

/// Adds a hypothetical table behind the others.
pub fn add_hypo(alloc: Global, known: &mut Known, hypo: QHypo) -> Result<(), Memory>
    ensures hypo { OnOk result (known.new ≡ spec.with_hypo known.old hypo) }
{
    let source = Source::Hypo(number_of(known.query.hypos.len())?);
    add_relation(alloc, known, &hypo.name, source)?;
    known.query.hypos.push(hypo)?;
    Ok(())
}

/// Adds a view behind the others.
pub fn add_view(alloc: Global, known: &mut Known, view: QView) -> Result<(), Memory>
    ensures view { OnOk result (known.new ≡ spec.with_view known.old view) }
{
    let source = Source::View(number_of(known.query.views.len())?);
    add_relation(alloc, known, &view.name, source)?;
    known.query.views.push(view)?;
    Ok(())
}

/// Adds a requirement behind the others.
pub fn add_require(known: &mut Known, require: Require) -> Result<(), Memory>
    ensures require { OnOk result (known.new ≡ spec.with_require known.old require) }
{
    known.query.requires_.push(require)?;
    Ok(())
}
