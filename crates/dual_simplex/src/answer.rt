//! What a relaxed part comes to, with what shows it.
ghost use Rattle.std.specs.Prelude.{◌≡◌, ℕ, suc, ◌+◌, ◌^◌, ◌<◌, ◌≤◌, ℤ, ◌≤ℤ◌, length, drop, unsigned_abs, Option, IfOk, IfSome};
ghost use Rattle.ip_rows.specs.Lps.{IsWellFormedLp, IsMeasuredLp};
ghost use Rattle.ip_rows.specs.Rows.{side_at};
ghost use Rattle.dict_pivot.specs.Quantities.{AreLeast};
ghost use Rattle.dict_pivot.specs.Dictionaries.{number, cell_of, least_of, table};
ghost use Rattle.dual_simplex.specs.Path.{FirstViolated, NoneViolated, NoneEnters, IsPast, PathRises};
ghost use Rattle.dual_simplex.specs.Shown.{Stands};
ghost use Rattle.dual_simplex.specs.Evidence.{Shows};

use crate::closing::{Bounded, bound_by_aim, bound_by_row};
use crate::next::PivotAt;
use crate::walk::{Ended, walk};
use base_kit::{List, Memory};
use dict_pivot::{Dict, WideCell};
use ip_rows::{Lp, Mult};
use rat128::Rat;
use std::alloc::Global;

/// What a relaxed part comes to (docs/SOLVER.md). In each list of multipliers the rows rise, and each factor is above 0.
#[derive(Drop)]
pub enum Relaxed {
    /// No point within the sides meets the rows and is better than the best value, or, where it is not against the best
    /// value, none meets them at all: the bound by these multipliers shows it.
    Closed {
        against_best: bool,
        multipliers: List<Mult>,
    },
    /// The least point and its value, which is better than the best value, and multipliers by which the bound is that
    /// value.
    Optimum {
        value: Rat,
        point: List<Rat>,
        multipliers: List<Mult>,
    },
    /// A number passes 2^127 - 1 in size.
    Wide(WideProof),
}

/// Where a number passes 2^127 - 1 in size: at the next pivot of the dictionary with this basis, whose first wide cell
/// is told, or else in the bound that belongs to that dictionary, at which the path ends. The basis has the rows whose
/// quantities are free, by columns (docs/SOLVER.md).
#[derive(Drop)]
pub struct WideProof {
    pub basis: List<u32>,
    pub pivot: Option<PivotAt>,
    pub cell: Option<WideCell>,
}

/// Relaxes a part against the best value that was found before, if any. The part is measured, no side is empty, and it
/// has at most 1,024 columns and 4,096 rows; a best value is at most 2^126 in size. `Err` is want of memory.
///
/// It always returns: at each pivot the constants of the aim and of the columns' values rise in lexicographic order, and
/// fractions of 127 bits are finitely many.
pub fn relax(alloc: Global, lp: &Lp, best: Option<i128>) -> Result<Relaxed, Memory>
    requires formed { IsWellFormedLp lp.now }
    requires measured { IsMeasuredLp lp.now }
    requires sides { (j : ℕ) → j < length lp.now.sides → (side_at lp.now.sides j).lo ≤ℤ (side_at lp.now.sides j).hi }
    requires columns { length lp.now.sides ≤ 1024 }
    requires rows { length lp.now.rows ≤ 4096 }
    requires best { IfSome best (λ (b : ℤ). unsigned_abs b ≤ 2 ^ 126) }
    ensures shows { IfOk result (λ answer. Shows lp.now best answer) }
    ensures rises { PathRises lp.now best }
{
    let last = walk(alloc, lp, best)?;
    let dict = &last.dict;
    match last.ended {
        Ended::Past => past(alloc, lp, dict),
        Ended::Solved => solved(alloc, lp, dict),
        Ended::Stuck(row) => stuck(alloc, lp, dict, row),
        Ended::Wide(at, cell) => wide(alloc, dict, Some(at), Some(cell)),
    }
}

/// The answer past the best value.
fn past(alloc: Global, lp: &Lp, dict: &Dict) -> Result<Relaxed, Memory>
    requires formed { IsWellFormedLp lp.now }
    requires sides { (j : ℕ) → j < length lp.now.sides → (side_at lp.now.sides j).lo ≤ℤ (side_at lp.now.sides j).hi }
    requires columns { length lp.now.sides ≤ 1024 }
    requires rows { length lp.now.rows ≤ 4096 }
    requires width { dict.now.width ≡ length lp.now.sides + 1 }
    requires height { dict.now.height ≡ suc (length lp.now.sides + length lp.now.sides + length lp.now.rows) }
    requires least { AreLeast lp.now (least_of dict.now.low) }
    ensures { IfOk result (λ answer. (best : Option ℤ) → Stands lp.now best dict.now → IsPast best (table dict.now) → Shows lp.now best answer) }
{
    let made = bound_by_aim(alloc, lp, dict)?;
    let Bounded { multipliers, bound } = made;
    match bound {
        None => wide(alloc, dict, None, None),
        Some(_) => Ok(Relaxed::Closed {
            against_best: true,
            multipliers,
        }),
    }
}

/// The answer where no row is violated.
fn solved(alloc: Global, lp: &Lp, dict: &Dict) -> Result<Relaxed, Memory>
    requires formed { IsWellFormedLp lp.now }
    requires sides { (j : ℕ) → j < length lp.now.sides → (side_at lp.now.sides j).lo ≤ℤ (side_at lp.now.sides j).hi }
    requires columns { length lp.now.sides ≤ 1024 }
    requires rows { length lp.now.rows ≤ 4096 }
    requires width { dict.now.width ≡ length lp.now.sides + 1 }
    requires height { dict.now.height ≡ suc (length lp.now.sides + length lp.now.sides + length lp.now.rows) }
    requires least { AreLeast lp.now (least_of dict.now.low) }
    ensures { IfOk result (λ answer. (best : Option ℤ) → Stands lp.now best dict.now → (IsPast best (table dict.now) → ⊥) → NoneViolated (least_of dict.now.low) (table dict.now) → Shows lp.now best answer) }
{
    let made = bound_by_aim(alloc, lp, dict)?;
    let Bounded { multipliers, bound } = made;
    match bound {
        None => wide(alloc, dict, None, None),
        Some(value) => {
            let point = point_of(alloc, dict, lp.sides.len())?;
            Ok(Relaxed::Optimum {
                value,
                point,
                multipliers,
            })
        }
    }
}

/// The answer where no column has a positive factor in the first violated row.
fn stuck(alloc: Global, lp: &Lp, dict: &Dict, row: u32) -> Result<Relaxed, Memory>
    requires formed { IsWellFormedLp lp.now }
    requires sides { (j : ℕ) → j < length lp.now.sides → (side_at lp.now.sides j).lo ≤ℤ (side_at lp.now.sides j).hi }
    requires columns { length lp.now.sides ≤ 1024 }
    requires rows { length lp.now.rows ≤ 4096 }
    requires width { dict.now.width ≡ length lp.now.sides + 1 }
    requires height { dict.now.height ≡ suc (length lp.now.sides + length lp.now.sides + length lp.now.rows) }
    requires least { AreLeast lp.now (least_of dict.now.low) }
    requires row { row < dict.now.height }
    ensures { IfOk result (λ answer. (best : Option ℤ) → Stands lp.now best dict.now → (IsPast best (table dict.now) → ⊥) → FirstViolated (least_of dict.now.low) (table dict.now) row → NoneEnters (table dict.now) row → Shows lp.now best answer) }
{
    let made = bound_by_row(alloc, lp, dict, row)?;
    let Bounded { multipliers, bound } = made;
    match bound {
        None => wide(alloc, dict, None, None),
        Some(_) => Ok(Relaxed::Closed {
            against_best: false,
            multipliers,
        }),
    }
}

/// The answer at a dictionary where a number is too wide.
fn wide(
    alloc: Global,
    dict: &Dict,
    pivot: Option<PivotAt>,
    cell: Option<WideCell>,
) -> Result<Relaxed, Memory>
    ensures { IfOk result (λ answer. answer ≡ Relaxed.Wide (record { basis = drop 1 dict.now.free; pivot = pivot; cell = cell })) }
{
    let basis = basis_of(alloc, dict)?;
    Ok(Relaxed::Wide(WideProof { basis, pivot, cell }))
}

/// The rows whose quantities are free, by columns.
fn basis_of(alloc: Global, dict: &Dict) -> Result<List<u32>, Memory>
    ensures { IfOk result (λ basis. basis ≡ drop 1 dict.now.free) }
{
    let width = dict.width();
    let mut basis = Vec::with_capacity(alloc, width as usize)?;
    for column in 1..width {
        basis.push(dict.free(column))?;
    }
    Ok(List::from_vec(basis))
}

/// The columns' values where each free quantity is the least that it may be.
fn point_of(alloc: Global, dict: &Dict, columns: usize) -> Result<List<Rat>, Memory>
    requires columns { columns ≤ 1024 }
    requires height { columns < dict.now.height }
    requires width { 0 < dict.now.width }
    ensures size { IfOk result (λ point. length point ≡ columns) }
    ensures each { IfOk result (λ point. (j : ℕ) → j < columns → number point j ≡ cell_of dict.now (suc j) 0) }
{
    let mut point = Vec::with_capacity(alloc, columns)?;
    for column in 0..columns {
        point.push(dict.cell(column as u32 + 1, 0))?;
    }
    Ok(List::from_vec(point))
}
