//! What the pivot's column is multiplied by where it is added to another column: the column's share.
ghost use Rattle.std.specs.Prelude.{◌≡◌, ◌≢◌, ℕ, ◌<◌, ◌≤◌, length, take, pos, Some, None};
ghost use Rattle.rat128.specs.Operations.{IsNarrow};
ghost use Rattle.dict_pivot.specs.Dictionaries as spec;
ghost use Rattle.dict_pivot.specs.Steps.{AreShares, AreActive};

use rat128::Rat;

/// How far the shares are made: those of the columns below `end` are, and `count` of these columns are active. Where
/// `end` is a column, its share passes.
#[derive(Clone, Copy)]
pub(crate) struct Made {
    pub(crate) end: usize,
    pub(crate) count: usize,
}

/// Makes the shares of the columns from the left up to the first that passes, and lists the columns whose share is not
/// 0, the pivot's own among them.
pub(crate) fn make_shares(
    row: &[Rat],
    column: usize,
    least: &Rat,
    shares: &mut [Rat],
    active: &mut [usize],
) -> Made
    requires column { column < length row.now }
    requires narrow { IsNarrow (spec.number row.now column) }
    requires nonzero { (spec.number row.now column).num ≢ pos 0 }
    requires room { length shares.old ≡ length row.now }
    requires active_room { length active.old ≡ length row.now }
    ensures end { result.end ≤ length row.now }
    ensures count { result.count ≤ length active.new }
    ensures wide { result.end < length row.now → spec.share_of row.now column least.now result.end ≡ None }
    ensures shares { AreShares row.now column least.now result.end shares.new }
    ensures active { AreActive (take result.count active.new) column result.end shares.new }
{
    let inverse = inverse(&row[column]);
    let mut count = 0;
    for j in 0..row.len() {
        match share(row, column, least, &inverse, j) {
            None => return Made { end: j, count },
            Some(made) => {
                shares[j] = made;
                if made.num() != 0 {
                    active[count] = j;
                    count += 1;
                }
            }
        }
    }
    Made {
        end: row.len(),
        count,
    }
}

/// The share of a column, by the inverse of the pivot's cell.
fn share(row: &[Rat], column: usize, least: &Rat, inverse: &Rat, j: usize) -> Option<Rat>
    requires column { column < length row.now }
    requires j { j < length row.now }
    requires inverse { spec.inverse_of (spec.number row.now column) ≡ Some inverse.now }
    ensures { result ≡ spec.share_of row.now column least.now j }
{
    if j == column {
        return Some(*inverse);
    }
    let divided = divided(row, least, j)?;
    let product = divided.mul(inverse)?;
    Some(product.negated())
}

/// What is divided by the pivot's cell: a factor, or how far the constant stands above the least.
fn divided(row: &[Rat], least: &Rat, j: usize) -> Option<Rat>
    requires { j < length row.now }
    ensures { result ≡ spec.divided_of row.now least.now j }
{
    if j == 0 {
        row[0].sub(least)
    } else {
        Some(row[j])
    }
}

/// 1 over a fraction that is not 0: its two numbers change places, so that none passes.
fn inverse(cell: &Rat) -> Rat
    requires { cell.now.num ≢ pos 0 }
    ensures { spec.inverse_of cell.now ≡ Some result }
{
    let _cell = cell.num();
    match Rat::from(1).div(cell) {
        Some(inverse) => inverse,
        None => *cell,
    }
}
