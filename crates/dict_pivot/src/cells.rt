//! The cells of a row after a pivot. A row with 0 in the pivot's column is passed over whole, and so are columns with
//! the share 0: their cells stay.
ghost use Rattle.std.specs.Prelude.{◌≡◌, ◌≢◌, ℕ, ◌<◌, ◌≤◌, cond, Bool, length, pos, Option, Some, None, IsSome, MatchOption};
ghost use Rattle.rat128.specs.Operations.{IsNarrow, mul_of};
ghost use Rattle.dict_pivot.specs.Dictionaries as spec;
ghost use Rattle.dict_pivot.specs.Steps.{AreActive, IsOwnRow};
ghost use Rattle.dict_pivot.specs.Steps as steps;

use rat128::Rat;

/// The fraction itself, of which a caller then knows that its numbers fit.
pub(crate) fn fitting(fraction: Rat) -> Rat
    ensures same { result ≡ fraction }
    ensures narrow { IsNarrow result }
{
    let _num = fraction.num();
    fraction
}

/// A cell after a pivot, outside the pivot's row and column.
#[tactic(auto, unfolding(crate::specs::Dictionaries::new_number))]
fn moved(own: &Rat, across: &Rat, share: &Rat) -> Option<Rat>
    ensures { result ≡ spec.new_number own.now across.now share.now }
{
    let product = across.mul(share)?;
    own.add(&product)
}

/// A cell of a row after a pivot.
fn changed(row: &[Rat], column: usize, shares: &[Rat], j: usize) -> Option<Rat>
    requires same { length shares.now ≡ length row.now }
    requires column { column < length row.now }
    requires j { j < length row.now }
    ensures { result ≡ steps.new_at row.now column shares.now j }
{
    if j == column {
        row[column].mul(&shares[j])
    } else {
        moved(&row[j], &row[column], &shares[j])
    }
}

/// The first column below `end` whose cell passes in a row.
pub(crate) fn wide_in_row(
    row: &[Rat],
    column: usize,
    shares: &[Rat],
    active: &[usize],
    end: usize,
) -> Option<usize>
    requires same { length shares.now ≡ length row.now }
    requires column { column < length row.now }
    requires end { end ≤ length row.now }
    requires active { AreActive active.now column end shares.now }
    requires narrow { (j : ℕ) → j < length row.now → IsNarrow (spec.number row.now j) }
    requires narrow_shares { (j : ℕ) → j < end → IsNarrow (spec.number shares.now j) }
    ensures { MatchOption result ((j : ℕ) → j < end → IsSome (steps.new_at row.now column shares.now j)) (λ j. (j < end) × (steps.new_at row.now column shares.now j ≡ None) × ((k : ℕ) → k < j → IsSome (steps.new_at row.now column shares.now k))) }
{
    if row[column].num() == 0 {
        return None;
    }
    for s in 0..active.len() {
        let j = active[s];
        if changed(row, column, shares, j).is_none() {
            return Some(j);
        }
    }
    None
}

/// Writes a row's cells after a pivot, all of which fit.
pub(crate) fn change_row(row: &mut [Rat], column: usize, shares: &[Rat], active: &[usize])
    requires same { length shares.now ≡ length row.old }
    requires column { column < length row.old }
    requires active { AreActive active.now column (length row.old) shares.now }
    requires narrow { (j : ℕ) → j < length row.old → IsNarrow (spec.number row.old j) }
    requires narrow_shares { (j : ℕ) → j < length row.old → IsNarrow (spec.number shares.now j) }
    requires fits { (j : ℕ) → j < length row.old → IsSome (steps.new_at row.old column shares.now j) }
    ensures { (j : ℕ) → j < length row.old → steps.new_at row.old column shares.now j ≡ Some (spec.number row.new j) }
{
    let across = row[column];
    if across.num() == 0 {
        return;
    }
    for s in 0..active.len() {
        let j = active[s];
        row[j] = sure(&row[j], &across, &shares[j], j == column);
    }
}

/// A cell after a pivot, where it is known to fit.
fn sure(own: &Rat, across: &Rat, share: &Rat, here: bool) -> Rat
    requires { IsSome (cond here (mul_of across.now share.now) (spec.new_number own.now across.now share.now)) }
    ensures { cond here (mul_of across.now share.now) (spec.new_number own.now across.now share.now) ≡ Some result }
{
    let cell = if here {
        across.mul(share)
    } else {
        moved(own, across, share)
    };
    match cell {
        Some(cell) => cell,
        None => *own,
    }
}

/// Makes a row that of its own quantity, which became free.
pub(crate) fn write_own_row(cells: &mut [Rat], column: usize, least: &Rat)
    requires some { 0 < column }
    requires column { column < length cells.old }
    ensures { IsOwnRow least.now column cells.new }
{
    let zero = Rat::from(0);
    for cell in cells.iter_mut() {
        *cell = zero;
    }
    cells[0] = *least;
    cells[column] = Rat::from(1);
}
