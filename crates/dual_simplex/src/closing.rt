//! The multipliers that a row of a dictionary gives the part's rows, and the bound by them.
ghost use Rattle.std.specs.Prelude.{◌≡◌, ℕ, suc, ◌+◌, ◌^◌, ◌<◌, ◌≤◌, ◌==◌, cond, pos, unsigned_abs, List, [], ◌∷◌, ◌++◌, length, replicate, All, IfOk, IfSome, OnOk};
ghost use Rattle.rat128.specs.Fractions.{whole_fraction, minus};
ghost use Rattle.rat128.specs.Rationals.{value};
ghost use Rattle.ip_rows.specs.declared.rows.IpRow.{IpRow};
ghost use Rattle.ip_rows.specs.Rows.{AreTerms};
ghost use Rattle.ip_rows.specs.Lps.{IsWellFormedLp};
ghost use Rattle.safe_bound.specs.Below.{AreNotNegative, IsAtMost};
ghost use Rattle.safe_bound.specs.Exact.{exact_bound};
ghost use Rattle.dict_pivot.specs.Dictionaries.{number};
ghost use Rattle.dual_simplex.specs.Shown.{factor_of_free, objective_multiplier, row_multiplier, multipliers_of, first_columns, bound_with};

use base_kit::{List, Memory};
use dict_pivot::Dict;
use ip_rows::{Coef, Lp, Mult};
use rat128::Rat;
use safe_bound::bound;
use std::alloc::Global;

/// Multipliers of a part's rows, and the bound by them: none where an operation of it is.
#[derive(Drop)]
pub(crate) struct Bounded {
    pub(crate) multipliers: List<Mult>,
    pub(crate) bound: Option<Rat>,
}

/// By the aim's row: the factors of the free surpluses.
pub(crate) fn bound_by_aim(alloc: Global, lp: &Lp, dict: &Dict) -> Result<Bounded, Memory>
    requires formed { IsWellFormedLp lp.now }
    requires columns { length lp.now.sides ≤ 1024 }
    requires rows { length lp.now.rows ≤ 4096 }
    requires width { dict.now.width ≡ length lp.now.sides + 1 }
    requires height { dict.now.height ≡ suc (length lp.now.sides + length lp.now.sides + length lp.now.rows) }
    ensures those { IfOk result (λ made. made.multipliers ≡ multipliers_of (objective_multiplier lp.now dict.now) (length lp.now.rows)) }
    ensures bound { IfOk result (λ made. made.bound ≡ bound_with lp.now lp.now.aim made.multipliers) }
    ensures exact { IfOk result (λ made. IfSome made.bound (λ z. value z ≡ exact_bound lp.now.rows lp.now.aim lp.now.sides made.multipliers (first_columns (length lp.now.sides)))) }
    ensures below { IfOk result (λ made. IfSome made.bound (λ z. AreNotNegative made.multipliers → IsAtMost (value z) lp.now.rows lp.now.aim lp.now.sides made.multipliers)) }
{
    let columns = lp.sides.len();
    let factors = surplus_factors(alloc, dict, 0, columns as u32, lp.rows.len())?;
    bound_by(alloc, lp, lp.aim.as_slice(), factors.as_slice())
}

/// By a violated row: the negated factors of the free surpluses, and 1 for the row's own surplus.
pub(crate) fn bound_by_row(alloc: Global, lp: &Lp, dict: &Dict, row: u32) -> Result<Bounded, Memory>
    requires formed { IsWellFormedLp lp.now }
    requires columns { length lp.now.sides ≤ 1024 }
    requires rows { length lp.now.rows ≤ 4096 }
    requires width { dict.now.width ≡ length lp.now.sides + 1 }
    requires height { dict.now.height ≡ suc (length lp.now.sides + length lp.now.sides + length lp.now.rows) }
    requires row { row < dict.now.height }
    ensures those { IfOk result (λ made. made.multipliers ≡ multipliers_of (row_multiplier lp.now dict.now row) (length lp.now.rows)) }
    ensures bound { IfOk result (λ made. made.bound ≡ bound_with lp.now [] made.multipliers) }
    ensures exact { IfOk result (λ made. IfSome made.bound (λ z. value z ≡ exact_bound lp.now.rows [] lp.now.sides made.multipliers (first_columns (length lp.now.sides)))) }
{
    let columns = lp.sides.len();
    let mut factors = surplus_factors(alloc, dict, row, columns as u32, lp.rows.len())?;
    negate(factors.as_mut_slice());
    note(
        factors.as_mut_slice(),
        columns + columns,
        row as usize,
        &Rat::from(1),
    );
    bound_by(alloc, lp, &[], factors.as_slice())
}

/// The bound by these factors of the part's rows.
fn bound_by(alloc: Global, lp: &Lp, aim: &[Coef], factors: &[Rat]) -> Result<Bounded, Memory>
    requires formed { IsWellFormedLp lp.now }
    requires columns { length lp.now.sides ≤ 1024 }
    requires rows { length lp.now.rows ≤ 4096 }
    requires aim { AreTerms (length lp.now.sides) aim.now }
    requires size { length factors.now ≡ length lp.now.rows }
    ensures those { IfOk result (λ made. made.multipliers ≡ multipliers_of (number factors.now) (length lp.now.rows)) }
    ensures bound { IfOk result (λ made. made.bound ≡ bound_with lp.now aim.now made.multipliers) }
    ensures exact { IfOk result (λ made. IfSome made.bound (λ z. value z ≡ exact_bound lp.now.rows aim.now lp.now.sides made.multipliers (first_columns (length lp.now.sides)))) }
    ensures below { IfOk result (λ made. IfSome made.bound (λ z. AreNotNegative made.multipliers → IsAtMost (value z) lp.now.rows aim.now lp.now.sides made.multipliers)) }
{
    let multipliers = listed(alloc, factors)?;
    let reach = columns_of(alloc, lp.sides.len())?;
    let found = bound(
        &lp.rows,
        aim,
        lp.sides.as_slice(),
        reach.as_slice(),
        multipliers.as_slice(),
    );
    Ok(Bounded {
        multipliers: List::from_vec(multipliers),
        bound: found,
    })
}

/// The columns from 0 on.
fn columns_of(alloc: Global, columns: usize) -> Result<Vec<u32>, Memory>
    requires { columns ≤ 1024 }
    ensures { IfOk result (λ made. made.items ≡ first_columns columns) }
{
    let mut made = Vec::with_capacity(alloc, columns)?;
    for column in 0..columns {
        made.push(column as u32)?;
    }
    Ok(made)
}

/// The factors that are not 0, in the order of the rows.
fn listed(alloc: Global, factors: &[Rat]) -> Result<Vec<Mult>, Memory>
    requires { length factors.now ≤ 4096 }
    ensures { IfOk result (λ made. made.items ≡ multipliers_of (number factors.now) (length factors.now)) }
{
    let mut made = Vec::with_capacity(alloc, factors.len())?;
    for row in 0..factors.len() {
        add(&mut made, row, &factors[row])?;
    }
    Ok(made)
}

/// Adds a row's multiplier, where it is not 0.
fn add(made: &mut Vec<Mult>, row: usize, factor: &Rat) -> Result<(), Memory>
    requires { row < 2 ^ 32 }
    ensures { OnOk result (made.new.items ≡ made.old.items ++ cond (unsigned_abs factor.now.num == 0) [] (record { row = row; factor = factor.now } ∷ [])) }
{
    if factor.num() == 0 {
        return Ok(());
    }
    made.push(Mult {
        row: row as u32,
        factor: *factor,
    })?;
    Ok(())
}

/// The row's factors of the free surpluses, by the part's rows: 0 where a surplus is not free.
fn surplus_factors(
    alloc: Global,
    dict: &Dict,
    row: u32,
    columns: u32,
    rows: usize,
) -> Result<Vec<Rat>, Memory>
    requires row { row < dict.now.height }
    requires columns { dict.now.width ≡ columns + 1 }
    requires rows { dict.now.height ≡ suc (columns + columns + rows) }
    ensures size { IfOk result (λ made. length made.items ≡ rows) }
    ensures each { IfOk result (λ made. (r : ℕ) → r < rows → number made.items r ≡ factor_of_free dict.now row (suc (columns + columns + r)) columns) }
{
    let mut made = zeros(alloc, rows)?;
    scatter(made.as_mut_slice(), dict, row, columns);
    Ok(made)
}

/// So many zeros.
fn zeros(alloc: Global, count: usize) -> Result<Vec<Rat>, Memory>
    ensures { IfOk result (λ made. made.items ≡ replicate count (whole_fraction (pos 0))) }
{
    let zero = Rat::from(0);
    let mut made = Vec::with_capacity(alloc, count)?;
    for _ in 0..count {
        made.push(zero)?;
    }
    Ok(made)
}

/// Writes the row's factors of the free surpluses over zeros.
fn scatter(factors: &mut [Rat], dict: &Dict, row: u32, columns: u32)
    requires row { row < dict.now.height }
    requires columns { dict.now.width ≡ columns + 1 }
    requires rows { dict.now.height ≡ suc (columns + columns + length factors.old) }
    requires zeros { (r : ℕ) → number factors.old r ≡ whole_fraction (pos 0) }
    ensures { (r : ℕ) → r < length factors.old → number factors.new r ≡ factor_of_free dict.now row (suc (columns + columns + r)) columns }
{
    let base = columns as usize + columns as usize;
    for column in 0..columns {
        let free = dict.free(column + 1) as usize;
        note(factors, base, free, &dict.cell(row, column + 1));
    }
}

/// Writes a factor at the row whose surplus this row of the dictionary has, if it has one.
fn note(factors: &mut [Rat], base: usize, row: usize, factor: &Rat)
    requires { row < suc (base + length factors.old) }
    ensures { (r : ℕ) → r < length factors.old → number factors.new r ≡ cond (row == suc (base + r)) factor.now (number factors.old r) }
{
    if row <= base {
        return;
    }
    factors[row - base - 1] = *factor;
}

/// Gives each factor the other sign.
fn negate(factors: &mut [Rat])
    ensures { (r : ℕ) → r < length factors.old → number factors.new r ≡ minus (number factors.old r) }
{
    for factor in factors.iter_mut() {
        *factor = factor.negated();
    }
}
