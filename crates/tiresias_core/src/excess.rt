//! What passes in a world that was looked at, and its line.

ghost use Rattle.std.specs.Prelude.{◌≡◌, IfOk, Some};
ghost use Rattle.tiresias_core.specs.Causes as causes;
ghost use Rattle.tiresias_core.specs.Lines as spec;

use crate::line::named_line;
use crate::refusal::wide_line;
use base_kit::{List, Memory};
use std::alloc::Global;
use tiql_query::{Query, Source};
use world_def::EvalFault;

/// What passes in a world that was looked at.
#[derive(Debug, Drop)]
pub(crate) enum Excess {
    /// A value over the relation of this name is above 10^17 in size.
    Value { name: List<u8>, number: i128 },
    /// The view of this name has more rows, or a select of it more rows or combinations, than the limit (docs/MEANING.md).
    Rows { name: List<u8>, limit: u32 },
}

/// What passes in a world at fault.
pub(crate) fn excess_of(alloc: Global, query: &Query, fault: EvalFault) -> Result<Excess, Memory>
    ensures { IfOk result (λ told. causes.excess_of query.now fault ≡ Some told) }
{
    match fault {
        EvalFault::Wide { source, number } => {
            let name = name_of(alloc, query, source)?;
            Ok(Excess::Value { name, number })
        }
        EvalFault::TooManyRows { view, limit } => {
            let name = name_of(alloc, query, Source::View(view))?;
            Ok(Excess::Rows { name, limit })
        }
        EvalFault::Memory => Err(Memory),
    }
}

/// The name of a relation.
#[tactic(auto, unfolding(crate::specs::Causes::name_of))]
fn name_of(alloc: Global, query: &Query, source: Source) -> Result<List<u8>, Memory>
    ensures { IfOk result (λ name. name ≡ causes.name_of query.now source) }
{
    let name = match source {
        Source::Table(number) => query
            .tables
            .get(number as usize)
            .map(|table| table.name.as_str()),
        Source::Hypo(number) => query
            .hypos
            .get(number as usize)
            .map(|hypo| hypo.name.as_str()),
        Source::View(number) => query
            .views
            .get(number as usize)
            .map(|view| view.name.as_str()),
    };
    Ok(List::from_slice(alloc, name.unwrap_or("").as_bytes())?)
}

/// The line of what passes.
pub(crate) fn excess_line(alloc: Global, told: &Excess) -> Result<List<u8>, Memory>
    ensures { IfOk result (λ line. line ≡ spec.excess_line told.now) }
{
    match told {
        Excess::Value { name, number } => wide_line(alloc, name.as_slice(), *number),
        Excess::Rows { name, limit } => rows_line(alloc, name.as_slice(), *limit),
    }
}

/// The line of a limit of rows that is passed, of the view of this name.
fn rows_line(alloc: Global, name: &[u8], limit: u32) -> Result<List<u8>, Memory>
    ensures { IfOk result (λ line. line ≡ spec.rows_line name.now limit) }
{
    let behind = format!(in alloc; " {limit}")?;
    named_line(alloc, "refused: too many view rows ", name, behind.as_str())
}
