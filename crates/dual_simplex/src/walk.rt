//! The path from the first dictionary to its first end, or to a pivot with a cell that is too wide.
ghost use Rattle.std.specs.Prelude.{◌≡◌, ◌^◌, ◌≤◌, ℤ, length, unsigned_abs, IfOk, IfSome};
ghost use Rattle.ip_rows.specs.Lps.{IsWellFormedLp, IsMeasuredLp};
ghost use Rattle.dict_pivot.specs.Dictionaries.{least_of, IsDictionary};
ghost use Rattle.dict_pivot.specs.Quantities.{AreLeast};
ghost use Rattle.dual_simplex.specs.Shown.{Stands};
ghost use Rattle.dual_simplex.specs.Endings.{IsEnded};

use crate::next::{PivotAt, Step, next};
use base_kit::Memory;
use dict_pivot::{Dict, WideCell, start};
use ip_rows::Lp;
use std::alloc::Global;

/// How the path goes no further.
#[derive(Clone, Copy)]
pub(crate) enum Ended {
    Past,
    Solved,
    Stuck(u32),
    Wide(PivotAt, WideCell),
}

/// The dictionary at which the path goes no further.
#[derive(Drop)]
pub(crate) struct Last {
    pub(crate) dict: Dict,
    pub(crate) ended: Ended,
}

/// Follows the path: it ends since the constants rise in lexicographic order, and fractions of 127 bits are finitely
/// many (docs/SOLVER.md). `Err` is want of memory.
pub(crate) fn walk(alloc: Global, lp: &Lp, best: Option<i128>) -> Result<Last, Memory>
    requires formed { IsWellFormedLp lp.now }
    requires measured { IsMeasuredLp lp.now }
    requires columns { length lp.now.sides ≤ 1024 }
    requires rows { length lp.now.rows ≤ 4096 }
    requires best { IfSome best (λ (b : ℤ). unsigned_abs b ≤ 2 ^ 126) }
    ensures stands { IfOk result (λ last. Stands lp.now best last.dict) }
    ensures least { IfOk result (λ last. AreLeast lp.now (least_of last.dict.low)) }
    ensures dictionary { IfOk result (λ last. IsDictionary last.dict) }
    ensures ended { IfOk result (λ last. IsEnded best last.dict last.ended) }
{
    let mut dict = start(alloc, lp)?;
    'path: loop {
        match next(&dict, best) {
            Step::Past => return Ok(Last {
                dict,
                ended: Ended::Past,
            }),
            Step::Solved => return Ok(Last {
                dict,
                ended: Ended::Solved,
            }),
            Step::Stuck(row) => return Ok(Last {
                dict,
                ended: Ended::Stuck(row),
            }),
            Step::Pivot(at) => match dict.pivot(at.row, at.column) {
                Ok(()) => {}
                Err(cell) => return Ok(Last {
                    dict,
                    ended: Ended::Wide(at, cell),
                }),
            },
        }
    }
}
