//! Possible rows that are put together by their keys.

ghost use Rattle.std.specs.Prelude.{◌≡◌, ◌∷◌, [], length, map, IfOk};
ghost use Rattle.sym_groups.specs.Groups as spec;
ghost use Rattle.sym_groups.specs.Together.{lent_rows, lists_in};

use base_kit::{Memory, Row, Value};
use std::alloc::Global;
use std::collections::BTreeMap;
use sym_rows::SymRow;

/// The rows of each key together, by rising keys; each row has its key in the same place.
pub(crate) fn together<'a>(
    alloc: Global,
    keys: &[Row],
    rows: &'a [SymRow],
) -> Result<Vec<Vec<&'a SymRow>>, Memory>
    requires { length keys.now ≡ length rows.now }
    ensures { IfOk result (λ made. map lent_rows made.items ≡ spec.together keys.now rows.now) }
{
    let groups = groups_of(alloc, keys, rows)?;
    let mut made = Vec::new(alloc);
    for group in groups.into_values() {
        made.push(group)?;
    }
    Ok(made)
}

/// The rows of each key.
fn groups_of<'k, 'a>(
    alloc: Global,
    keys: &'k [Row],
    rows: &'a [SymRow],
) -> Result<BTreeMap<&'k [Value], Vec<&'a SymRow>>, Memory>
    requires { length keys.now ≡ length rows.now }
    ensures { IfOk result (λ made. lists_in made ≡ spec.together keys.now rows.now) }
{
    let mut groups: BTreeMap<&'k [Value], Vec<&'a SymRow>> = BTreeMap::new(alloc);
    for (at, row) in rows.iter().enumerate() {
        groups
            .entry(keys[at].as_slice())?
            .or_insert(Vec::new(alloc))
            .push(row)?;
    }
    Ok(groups)
}

/// All the rows as one group.
pub(crate) fn whole<'a>(alloc: Global, rows: &'a [SymRow]) -> Result<Vec<Vec<&'a SymRow>>, Memory>
    ensures { IfOk result (λ made. map lent_rows made.items ≡ rows.now ∷ []) }
{
    let group = lent(alloc, rows)?;
    let mut made = Vec::new(alloc);
    made.push(group)?;
    Ok(made)
}

/// The rows, as they lie there.
fn lent<'a>(alloc: Global, rows: &'a [SymRow]) -> Result<Vec<&'a SymRow>, Memory>
    ensures { IfOk result (λ made. lent_rows made ≡ rows.now) }
{
    let mut made = Vec::new(alloc);
    for row in rows {
        made.push(row)?;
    }
    Ok(made)
}
