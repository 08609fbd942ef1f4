//! The first dictionary of a relaxed part.
ghost use Rattle.std.specs.Prelude.{◌≡◌, ℕ, suc, Bool, false, not, neg_ℤ, int_lt, slice_index, ◌+◌, ◌*◌, ◌^◌, ◌<◌, ◌≤◌, ◌==◌, cond, length, map, replicate, pos, negsuc, ◌+ℤ◌, ◌-ℤ◌, ◌*ℤ◌, unsigned_abs, All, IfOk};
ghost use Rattle.rat128.specs.Fractions.{whole_fraction};
ghost use Rattle.rat128.specs.Operations.{IsNarrow};
ghost use Rattle.ip_rows.specs.declared.Bounds.{Bounds};
ghost use Rattle.ip_rows.specs.declared.rows.Coef.{Coef};
ghost use Rattle.ip_rows.specs.Rows.{AreTerms, weight, factor_at, side_at};
ghost use Rattle.ip_rows.specs.Lps.{IsWellFormedLp, IsMeasuredLp};
ghost use Rattle.dict_pivot.specs.Dictionaries.{number, line, least_of, table, IsDictionary};
ghost use Rattle.dict_pivot.specs.Quantities.{meaning, growth_of, IsStart, AreLeast};
ghost use Rattle.dict_pivot.specs.First.{AreStarts, is_up, side_from, turned_by, corner_sum, corner_of, IsWritten, AreZeros};

use crate::cells::fitting;
use crate::dict::Dict;
use base_kit::Memory;
use ip_rows::{Bounds, Coef, Lp};
use rat128::Rat;
use std::alloc::Global;

/// The first dictionary of a relaxed part: each column starts at its upper side where its factor in the aim is negative,
/// and else at its lower side (docs/SOLVER.md). The part is measured and has at most 1,024 columns and 4,096 rows.
/// `Err` is want of memory.
pub fn start(alloc: Global, lp: &Lp) -> Result<Dict, Memory>
    requires formed { IsWellFormedLp lp.now }
    requires measured { IsMeasuredLp lp.now }
    requires columns { length lp.now.sides ≤ 1024 }
    requires rows { length lp.now.rows ≤ 4096 }
    ensures start { IfOk result (λ d. IsStart lp.now (table d)) }
    ensures least { IfOk result (λ d. AreLeast lp.now (least_of d.low)) }
    ensures dictionary { IfOk result (λ d. IsDictionary d) }
{
    let sides = lp.sides.as_slice();
    let width = sides.len() + 1;
    let height = 1 + 2 * sides.len() + lp.rows.len();
    let up = upper_starts(alloc, lp.aim.as_slice(), sides.len())?;
    let mut cells = zeros(alloc, height * width)?;
    write_start(cells.as_mut_slice(), lp, up.as_slice(), width, height);
    let free = first_free(alloc, up.as_slice())?;
    let low = lower_sides(alloc, sides)?;
    let shares = zeros(alloc, width)?;
    let active: Vec<usize> = vec![in alloc; 0; width]?;
    Ok(Dict {
        height,
        width,
        cells,
        free,
        low,
        shares,
        active,
    })
}

/// So many zeros.
fn zeros(alloc: Global, count: usize) -> Result<Vec<Rat>, Memory>
    ensures { IfOk result (λ made. made.items ≡ replicate count (whole_fraction (pos 0))) }
{
    let zero = Rat::from(0);
    let mut made = Vec::with_capacity(alloc, count)?;
    for _ in 0..count {
        made.push(zero)?;
    }
    Ok(made)
}

/// The columns' lower sides.
fn lower_sides(alloc: Global, sides: &[Bounds]) -> Result<Vec<i64>, Memory>
    ensures { IfOk result (λ low. low.items ≡ map (λ (side : Bounds). side.lo) sides.now) }
{
    let mut low = Vec::with_capacity(alloc, sides.len())?;
    for side in sides {
        low.push(side.lo)?;
    }
    Ok(low)
}

/// Writes every row of the first dictionary over zeros.
fn write_start(cells: &mut [Rat], lp: &Lp, up: &[bool], width: usize, height: usize)
    requires formed { IsWellFormedLp lp.now }
    requires measured { IsMeasuredLp lp.now }
    requires up { AreStarts lp.now up.now }
    requires width { width ≡ suc (length lp.now.sides) }
    requires height { height ≡ suc (length lp.now.sides + length lp.now.sides + length lp.now.rows) }
    requires size { length cells.old ≡ height * width }
    requires zeros { (j : ℕ) → number cells.old j ≡ whole_fraction (pos 0) }
    ensures { (i : ℕ) → i < height → IsWritten up.now (length lp.now.sides) (corner_of lp.now up.now (meaning (length lp.now.sides) i)) (growth_of lp.now (meaning (length lp.now.sides) i)) (line cells.new width i) }
{
    for i in 0..height {
        let start = i * width;
        write_row(&mut cells[start..start + width], lp, up, i);
    }
}

/// Writes row i of the first dictionary over zeros.
fn write_row(row: &mut [Rat], lp: &Lp, up: &[bool], i: usize)
    requires formed { IsWellFormedLp lp.now }
    requires measured { IsMeasuredLp lp.now }
    requires up { AreStarts lp.now up.now }
    requires i { i < suc (length lp.now.sides + length lp.now.sides + length lp.now.rows) }
    requires size { length row.old ≡ suc (length lp.now.sides) }
    requires zeros { AreZeros row.old }
    ensures { IsWritten up.now (length lp.now.sides) (corner_of lp.now up.now (meaning (length lp.now.sides) i)) (growth_of lp.now (meaning (length lp.now.sides) i)) row.new }
{
    let sides = lp.sides.as_slice();
    let columns = sides.len();
    if i == 0 {
        write_terms(row, lp.aim.as_slice(), 0, sides, up);
    } else if i <= columns {
        write_value(row, sides, up, i - 1);
    } else if i <= 2 * columns {
        write_distance(row, sides, up, i - 1 - columns);
    } else {
        let asked = &lp.rows.as_slice()[i - 1 - 2 * columns];
        write_terms(row, asked.terms.as_slice(), asked.least, sides, up);
    }
}

/// Writes the row of a column's value.
fn write_value(row: &mut [Rat], sides: &[Bounds], up: &[bool], column: usize)
    requires column { column < length sides.now }
    requires up { length up.now ≡ length sides.now }
    requires size { length row.old ≡ suc (length sides.now) }
    requires zeros { AreZeros row.old }
    ensures { IsWritten up.now (length sides.now) (side_from sides.now up.now column) (λ j. cond (column == j) (pos 1) (pos 0)) row.new }
{
    row[0] = whole(i128::from(first_side(sides, up, column)));
    row[column + 1] = unit(up[column]);
}

/// Writes the row of a column's distance from its upper side.
fn write_distance(row: &mut [Rat], sides: &[Bounds], up: &[bool], column: usize)
    requires column { column < length sides.now }
    requires up { length up.now ≡ length sides.now }
    requires size { length row.old ≡ suc (length sides.now) }
    requires zeros { AreZeros row.old }
    ensures { IsWritten up.now (length sides.now) ((side_at sides.now column).hi -ℤ side_from sides.now up.now column) (λ j. cond (column == j) (negsuc 0) (pos 0)) row.new }
{
    row[0] = whole(room_above(sides, up, column));
    row[column + 1] = unit(!up[column]);
}

/// The side at which a column starts.
fn first_side(sides: &[Bounds], up: &[bool], column: usize) -> i64
    requires column { column < length sides.now }
    requires up { length up.now ≡ length sides.now }
    ensures { result ≡ side_from sides.now up.now column }
{
    if up[column] {
        sides[column].hi
    } else {
        sides[column].lo
    }
}

/// How far a column starts below its upper side.
fn room_above(sides: &[Bounds], up: &[bool], column: usize) -> i128
    requires column { column < length sides.now }
    requires up { length up.now ≡ length sides.now }
    ensures value { result ≡ (side_at sides.now column).hi -ℤ side_from sides.now up.now column }
    ensures small { unsigned_abs result < 2 ^ 127 }
{
    i128::from(sides[column].hi) - i128::from(first_side(sides, up, column))
}

/// A factor 1, or -1.
fn unit(negative: bool) -> Rat
    ensures value { result ≡ whole_fraction (cond negative (negsuc 0) (pos 1)) }
    ensures narrow { IsNarrow result }
{
    if negative {
        fitting(Rat::from(-1))
    } else {
        fitting(Rat::from(1))
    }
}

/// A whole number as a fraction.
fn whole(number: i128) -> Rat
    requires { unsigned_abs number < 2 ^ 127 }
    ensures value { result ≡ whole_fraction number }
    ensures narrow { IsNarrow result }
{
    match Rat::new(number, 1) {
        Some(whole) => fitting(whole),
        None => fitting(Rat::from(0)),
    }
}

/// Writes the row of a sum of terms, less what is asked of it.
fn write_terms(row: &mut [Rat], terms: &[Coef], least: i64, sides: &[Bounds], up: &[bool])
    requires terms { AreTerms (length sides.now) terms.now }
    requires measured { weight sides.now terms.now + unsigned_abs least ≤ 2 ^ 120 }
    requires up { length up.now ≡ length sides.now }
    requires size { length row.old ≡ suc (length sides.now) }
    requires zeros { AreZeros row.old }
    ensures { IsWritten up.now (length sides.now) (corner_sum sides.now up.now terms.now -ℤ least) (λ j. factor_at terms.now j) row.new }
{
    let mut constant = opposite(least);
    for term in terms {
        let column = term.column as usize;
        constant += part(term, sides, up);
        row[column + 1] = turned(term, up[column]);
    }
    row[0] = whole(constant);
}

/// The number with the other sign.
fn opposite(number: i64) -> i128
    ensures { result ≡ neg_ℤ number }
{
    -i128::from(number)
}

/// What a term comes to where its column starts.
fn part(term: &Coef, sides: &[Bounds], up: &[bool]) -> i128
    requires column { term.now.column < length sides.now }
    requires up { length up.now ≡ length sides.now }
    ensures { result ≡ term.now.factor *ℤ side_from sides.now up.now term.now.column }
{
    i128::from(term.factor) * i128::from(first_side(sides, up, term.column as usize))
}

/// A term's factor, with the other sign where the column starts at its upper side.
fn turned(term: &Coef, up: bool) -> Rat
    ensures value { result ≡ whole_fraction (cond up (neg_ℤ term.now.factor) term.now.factor) }
    ensures narrow { IsNarrow result }
{
    let factor = Rat::from(term.factor);
    if up {
        fitting(factor.negated())
    } else {
        fitting(factor)
    }
}

/// Whether each column starts at its upper side.
fn upper_starts(alloc: Global, aim: &[Coef], columns: usize) -> Result<Vec<bool>, Memory>
    requires { AreTerms columns aim.now }
    ensures size { IfOk result (λ up. length up.items ≡ columns) }
    ensures each { IfOk result (λ up. (j : ℕ) → j < columns → is_up up.items j ≡ int_lt (factor_at aim.now j) (pos 0)) }
{
    let mut up = vec![in alloc; false; columns]?;
    mark_upper_starts(up.as_mut_slice(), aim);
    Ok(up)
}

/// Marks the columns with a negative factor among columns of which none is marked.
fn mark_upper_starts(up: &mut [bool], aim: &[Coef])
    requires aim { AreTerms (length up.old) aim.now }
    requires none { (j : ℕ) → is_up up.old j ≡ false }
    ensures { (j : ℕ) → j < length up.old → is_up up.new j ≡ int_lt (factor_at aim.now j) (pos 0) }
{
    for term in aim {
        up[term.column as usize] = is_negative(term);
    }
}

/// Whether a term's factor is negative.
fn is_negative(term: &Coef) -> bool
    ensures { result ≡ int_lt term.now.factor (pos 0) }
{
    term.factor < 0
}

/// The row whose quantity is free in each column, for column 0 the row 0.
fn first_free(alloc: Global, up: &[bool]) -> Result<Vec<u32>, Memory>
    requires { length up.now ≤ 1024 }
    ensures size { IfOk result (λ free. length free.items ≡ suc (length up.now)) }
    ensures each { IfOk result (λ free. (j : ℕ) → j < length up.now → slice_index free.items (suc j) ≡ cond (is_up up.now j) (suc (length up.now + j)) (suc j)) }
{
    let mut free = Vec::with_capacity(alloc, up.len() + 1)?;
    free.push(0)?;
    for j in 0..up.len() {
        free.push(first_row(up, j))?;
    }
    Ok(free)
}

/// The row whose quantity is free in column j + 1.
fn first_row(up: &[bool], j: usize) -> u32
    requires columns { length up.now ≤ 1024 }
    requires j { j < length up.now }
    ensures { result ≡ cond (is_up up.now j) (suc (length up.now + j)) (suc j) }
{
    let below = if up[j] { up.len() } else { 0 };
    (below + j) as u32 + 1
}
