//! How many world columns there may be.

ghost use Rattle.std.specs.Prelude.{◌≡◌, ◌≤◌, length, pos};
ghost use Rattle.world_points.specs.Points as points;
ghost use Rattle.job_intake.specs.Bounding as spec;
ghost use Rattle.job_intake.specs.Steps.{Follows};

use crate::job::Task;
use crate::refusal::{Refusal, Stop};
use tiql_query::WorldColumn;

/// The most world columns.
const MOST_COLUMNS: usize = 100_000;

/// The most columns with more than one value.
const MOST_UNFIXED: usize = 1_024;

/// Refuses too many columns where worlds are to be listed; an evaluation looks at one world, whatever the columns.
pub fn limit(task: &Task, columns: &[WorldColumn]) -> Result<(), Stop>
    ensures { Follows (spec.LimitComes task.now columns.now) result }
{
    match task {
        Task::Solve { .. } => within_limits(columns),
        Task::Check { .. } => within_limits(columns),
        Task::Evaluate { .. } => Ok(()),
    }
}

/// Refuses too many columns.
#[tactic(auto, unfolding(crate::specs::Bounding::limits))]
fn within_limits(columns: &[WorldColumn]) -> Result<(), Stop>
    ensures { Follows (λ outcome. outcome ≡ spec.limits columns.now) result }
{
    if columns.len() > MOST_COLUMNS {
        let count = columns.len() as u64;
        return Err(Stop::Refused(Refusal::TooManyColumns { count }));
    }
    let unfixed = unfixed(columns);
    if unfixed > MOST_UNFIXED {
        let columns = unfixed as u64;
        return Err(Stop::Refused(Refusal::PartTooLarge { columns }));
    }
    Ok(())
}

/// How many columns have more than one value.
fn unfixed(columns: &[WorldColumn]) -> usize
    ensures value { result ≡ spec.unfixed columns.now }
    ensures room { result ≤ length columns.now }
{
    let mut count = 0;
    for column in columns {
        if has_choice(column) {
            count += 1;
        }
    }
    count
}

/// Whether a column has more than one value. Where its row may be left out, 0 is one.
#[tactic(auto, unfolding(crate::specs::Bounding::has_choice))]
fn has_choice(column: &WorldColumn) -> bool
    ensures { result ≡ spec.has_choice column.now }
{
    if column.droppable {
        at_most_zero(column.lo) < at_least_zero(column.hi)
    } else {
        column.lo < column.hi
    }
}

fn at_most_zero(number: i64) -> i64
    ensures { result ≡ points.least number (pos 0) }
{
    if 0 < number { 0 } else { number }
}

fn at_least_zero(number: i64) -> i64
    ensures { result ≡ points.greatest number (pos 0) }
{
    if number < 0 { 0 } else { number }
}
