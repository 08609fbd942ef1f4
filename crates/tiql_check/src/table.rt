//! Tables.
ghost use Rattle.std.specs.Prelude.{◌≡◌, []};
ghost use Rattle.tiql_check.specs.Tables as spec;
ghost use Rattle.tiql_check.specs.Turns.{ChecksTo, ChecksInto, in_turn};

use crate::SoundFault;
use crate::known::{Known, is_taken};
use crate::scope::find_column;
use base_kit::{Duplicate, List, Name};
use std::alloc::Global;
use tiql_query::{Column, QTable};
use tiql_tree::{Spot, TreeColumn, TreeTable};

fn has_column(name: &Name, columns: &[Column]) -> bool
    ensures { result ≡ spec.has_column name.now columns.now }
{
    columns.iter().any(|column| column.name == *name)
}

/// Whether a number is one of these.
pub fn is_among(number: u32, numbers: &[u32]) -> bool
    ensures { result ≡ spec.is_among number numbers.now }
{
    numbers.iter().any(|other| *other == number)
}

// No two columns of a table have one name.
fn add_column(
    alloc: Global,
    before: &mut List<Column>,
    column: &TreeColumn,
) -> Result<(), SoundFault>
    ensures { ChecksInto (spec.with_column before.old column.now) before.new result }
{
    if has_column(&column.name.name, before.as_slice()) {
        return Err(SoundFault::SameName(column.name.place));
    }
    before.push(Column {
        name: column.name.name.copy(alloc)?,
        text: column.text,
        unknown: false,
    })?;
    Ok(())
}

fn check_columns(alloc: Global, trees: &[TreeColumn]) -> Result<List<Column>, SoundFault>
    ensures { ChecksTo (in_turn spec.with_column [] trees.now) result }
{
    let mut before = List::new(alloc);
    for column in trees {
        add_column(alloc, &mut before, column)?;
    }
    Ok(before)
}

// A KEY names columns of its table, each once.
fn add_key_column(columns: &[Column], before: &mut List<u32>, name: &Spot) -> Result<(), SoundFault>
    ensures { ChecksInto (spec.with_key_column columns.now before.old name.now) before.new result }
{
    match find_column(columns, &name.name)? {
        None => Err(SoundFault::NoSuchKeyColumn(name.place)),
        Some(found) => {
            if is_among(found.number, before.as_slice()) {
                return Err(SoundFault::SameName(name.place));
            }
            before.push(found.number)?;
            Ok(())
        }
    }
}

fn check_key(alloc: Global, columns: &[Column], names: &[Spot]) -> Result<List<u32>, SoundFault>
    ensures { ChecksTo (in_turn (spec.with_key_column columns.now) [] names.now) result }
{
    let mut before = List::new(alloc);
    for name in names {
        add_key_column(columns, &mut before, name)?;
    }
    Ok(before)
}

/// A table.
#[tactic(auto, unfolding(crate::specs::Tables::checked_table))]
pub fn check_table(alloc: Global, known: &Known, tree: &TreeTable) -> Result<QTable, SoundFault>
    ensures { ChecksTo (spec.checked_table known.now tree.now) result }
{
    if is_taken(known, &tree.name) {
        return Err(SoundFault::SameName(tree.name.place));
    }
    let columns = check_columns(alloc, tree.columns.as_slice())?;
    let key = check_key(alloc, columns.as_slice(), tree.key.as_slice())?;
    Ok(QTable {
        name: tree.name.name.copy(alloc)?,
        columns,
        key,
    })
}
