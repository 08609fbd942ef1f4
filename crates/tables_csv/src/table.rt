//! Reading a table.
ghost use Rattle.std.specs.Prelude.{◌≡◌, ◌≢◌, ◌<◌, ◌^◌, ◌↔◌, List, length, IfOk, IfErr, IsTrue};
ghost use Rattle.csv.specs.Records.{fields_of};
ghost use Rattle.base_kit.specs.declared.value.Value.{Value};
ghost use Rattle.tables_csv.specs.Passes.{GivesFault, GivesRows, TakesHeader};
ghost use Rattle.tables_csv.specs.Records.{IsOpen};
ghost use Rattle.tables_csv.specs.WholeTables.{IsFirstFault, IsTableOf, names_of};

use crate::TableFault;
use crate::keys::Keys;
use crate::record::{is_marked, reader_of, take_record, without_mark};
use crate::row::row_of;
use base_kit::{List, Memory, Row};
use csv::{ByteRecord, Reader};
use std::alloc::Global;
use tiql_query::{Column, QTable};

/// The most rows of a table (docs/TABLES.md).
pub const MOST_ROWS: usize = 200_000;

// The most columns that 32 bits number.
const MOST_COLUMNS: usize = 4_294_967_295;

/// The rows of a table, where the bytes are one, or the first fault in them (docs/TABLES.md, "Refusals"). `Memory` may
/// come for any bytes.
pub fn read_table(alloc: Global, bytes: &[u8], table: &QTable) -> Result<List<Row>, TableFault>
    ensures table { IfOk result (λ rows. IsTableOf bytes.now table.now rows) }
    ensures fault { IfErr result (λ told. told ≢ TableFault.Memory → IsFirstFault bytes.now table.now told) }
    ensures no_table { IfErr result (λ told. told ≢ TableFault.Memory → (rows : List (List Value)) → IsTableOf bytes.now table.now rows → ⊥) }
{
    // A fault tells the number of a column in 32 bits, and no memory holds more columns than that.
    if table.columns.len() > MOST_COLUMNS {
        return Err(TableFault::Memory);
    }
    let text = without_mark(bytes);
    if is_marked(text) {
        return Err(TableFault::Header);
    }
    let mut reader = reader_of(alloc, text);
    if !take_header(alloc, &mut reader, table.columns.as_slice())? {
        return Err(TableFault::Header);
    }
    rows_left(alloc, &mut reader, table, text.len())
}

// Takes the first record, and tells whether it is the names of the columns, in order.
fn take_header(
    alloc: Global,
    reader: &mut Reader<&[u8]>,
    columns: &[Column],
) -> Result<bool, Memory>
    requires { IsOpen reader.old }
    ensures { IfOk result (λ found. TakesHeader reader.old reader.new found (names_of columns.now)) }
{
    let mut header = ByteRecord::new(alloc);
    if !take_record(reader, &mut header)? {
        return Ok(false);
    }
    Ok(is_header(&header, columns))
}

// Whether a record is the names of the columns, in order.
fn is_header(header: &ByteRecord, columns: &[Column]) -> bool
    ensures { IsTrue result ↔ (fields_of header.now ≡ names_of columns.now) }
{
    if header.len() != columns.len() {
        return false;
    }
    for (at, column) in columns.iter().enumerate() {
        if header.get(at) != Some(column.name.as_str().as_bytes()) {
            return false;
        }
    }
    true
}

// The records that are left, as rows of a table whose file has so many bytes.
fn rows_left(
    alloc: Global,
    reader: &mut Reader<&[u8]>,
    table: &QTable,
    size: usize,
) -> Result<List<Row>, TableFault>
    requires open { IsOpen reader.old }
    requires columns { length table.now.columns < 2 ^ 32 }
    ensures rows { IfOk result (λ rows. GivesRows table.now reader.old rows) }
    ensures fault { IfErr result (λ told. told ≢ TableFault.Memory → GivesFault table.now reader.old told) }
{
    let key = table.key.as_slice();
    let mut rows = List::new(alloc);
    let mut keys = Keys::new(alloc, key, size / 4)?;
    let mut fields = ByteRecord::new(alloc);
    while take_record(reader, &mut fields)? {
        if rows.len() == MOST_ROWS {
            return Err(TableFault::TooManyRows);
        }
        let number = rows.len() as u32 + 1;
        let row = row_of(alloc, &fields, table.columns.as_slice(), number)?;
        if let Some(earlier) = keys.enter(key, rows.as_slice(), &row)? {
            return Err(TableFault::SameKey {
                row: number,
                earlier,
            });
        }
        rows.push(row)?;
    }
    Ok(rows)
}
