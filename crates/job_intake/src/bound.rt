//! The world columns of a query over its tables.

ghost use Rattle.std.specs.Prelude.{◌≡◌, ◌<◌, IfOk};
ghost use Rattle.world_def.specs.Columns.{IsSmall};
ghost use Rattle.job_intake.specs.Bounding as spec;
ghost use Rattle.job_intake.specs.Steps.{Follows};

use crate::refusal::{Refusal, Stop};
use base_kit::{List, Memory};
use std::alloc::Global;
use tiql_query::{Query, WorldColumn};
use world_def::{BoundsFault, Tables, world_columns};

/// The world columns, or the first fault of the bounds.
pub fn bounds(alloc: Global, query: &Query, tables: &Tables) -> Result<List<WorldColumn>, Stop>
    requires { IsSmall query.now tables.now }
    ensures { Follows (spec.BoundComes query.now tables.now) result }
{
    match world_columns(alloc, query, tables) {
        Ok(columns) => Ok(columns),
        Err(BoundsFault::Memory) => Err(Stop::Memory),
        Err(BoundsFault::TooManyWorldColumns) => Err(Stop::Refused(Refusal::TooManyWorldColumns)),
        Err(BoundsFault::EmptyBounds { hypo, row }) => {
            let hypo = name_of(alloc, query, hypo)?;
            Err(Stop::Refused(Refusal::EmptyBounds { hypo, row }))
        }
        Err(BoundsFault::Wide { hypo, number }) => {
            let hypo = name_of(alloc, query, hypo)?;
            Err(Stop::Refused(Refusal::TooWide { hypo, number }))
        }
    }
}

/// The name of a hypothetical table.
fn name_of(alloc: Global, query: &Query, hypo: u32) -> Result<List<u8>, Memory>
    ensures { IfOk result (λ name. name ≡ spec.hypo_name query.now hypo) }
{
    match query.hypos.get(hypo as usize) {
        Some(hypo) => Ok(List::from_slice(alloc, hypo.name.as_str().as_bytes())?),
        None => Ok(List::new(alloc)),
    }
}
