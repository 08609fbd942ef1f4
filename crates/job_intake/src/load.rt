//! The tables of a query, each from its file.

ghost use Rattle.std.specs.Prelude.{◌≡◌, OnOk, IfOk, length, string_bytes};
ghost use Rattle.job_intake.specs.Loading.{LoadComes, ReadComes, TableComes};
ghost use Rattle.job_intake.specs.Steps.{Follows, FailsAs, KeepsCounts};
ghost use Rattle.outside_io.specs.Shelves.{later};
ghost use Rattle.job_intake.specs.Visits.{later_by, visit};
ghost use Rattle.job_intake.specs.Words as words;

use crate::fetch::{MOST_FILE_BYTES, fetch_file};
use crate::refusal::{Refusal, Stop};
use base_kit::{List, Memory, Row};
use outside_io::Shelf;
use std::alloc::Global;
use tables_csv::{TableFault, read_table};
use tiql_query::QTable;
use world_def::Tables;

/// The rows of each table, from the files of a folder, in order.
pub fn load_tables<S: Shelf>(
    alloc: Global,
    shelf: &mut S,
    folder: &str,
    tables: &[QTable],
) -> Result<Tables, Stop>
    ensures held { S.held shelf.new ≡ S.held shelf.old }
    ensures moved { OnOk result (S.fails shelf.new ≡ later_by (length tables.now) (S.fails shelf.old)) }
    ensures counts { OnOk result (KeepsCounts (visit S.held S.fails S.misses S.faults shelf.old shelf.new)) }
    ensures failed { FailsAs (S.faults shelf.old) (S.faults shelf.new) result }
    ensures comes { Follows (LoadComes (visit S.held S.fails S.misses S.faults shelf.old shelf.new) folder.now tables.now) result }
{
    let mut made = List::new(alloc);
    for table in tables {
        made.push(load_table(alloc, shelf, folder, table)?)?;
    }
    Ok(made)
}

/// The rows of a table, from its file.
fn load_table<S: Shelf>(
    alloc: Global,
    shelf: &mut S,
    folder: &str,
    table: &QTable,
) -> Result<List<Row>, Stop>
    ensures held { S.held shelf.new ≡ S.held shelf.old }
    ensures moved { OnOk result (S.fails shelf.new ≡ later (S.fails shelf.old)) }
    ensures counts { OnOk result (KeepsCounts (visit S.held S.fails S.misses S.faults shelf.old shelf.new)) }
    ensures failed { FailsAs (S.faults shelf.old) (S.faults shelf.new) result }
    ensures comes { Follows (TableComes (visit S.held S.fails S.misses S.faults shelf.old shelf.new) folder.now table.now) result }
{
    let path = table_path(alloc, folder, table.name.as_str())?;
    let bytes = fetch_file(alloc, shelf, path.as_str(), MOST_FILE_BYTES)?;
    read_rows(alloc, bytes.as_slice(), table)
}

/// The name of a table's file in a folder.
fn table_path(alloc: Global, folder: &str, table: &str) -> Result<String, Memory>
    ensures { IfOk result (λ path. string_bytes path ≡ words.table_path folder.now table.now) }
{
    Ok(format!(in alloc; "{folder}/{table}.csv")?)
}

/// The rows of a table that the bytes are.
fn read_rows(alloc: Global, bytes: &[u8], table: &QTable) -> Result<List<Row>, Stop>
    ensures { Follows (ReadComes table.now bytes.now) result }
{
    match read_table(alloc, bytes, table) {
        Ok(rows) => Ok(rows),
        Err(TableFault::Memory) => Err(Stop::Memory),
        Err(why) => {
            let table = List::from_slice(alloc, table.name.as_str().as_bytes())?;
            Err(Stop::Refused(Refusal::Table { table, why }))
        }
    }
}
