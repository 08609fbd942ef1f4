//! Writing tables.
ghost use Rattle.std.specs.Prelude.{◌≡◌, ◌<◌, ◌++◌, ℕ, List, map, length, IfOk, OnOk, IsTrue, string_bytes};
ghost use Rattle.std.specs.List.{All};
ghost use Rattle.csv.specs.Records.{fields_of};
ghost use Rattle.csv.specs.Writing.{default_writer, row_text};
ghost use Rattle.base_kit.specs.Names as names;
ghost use Rattle.tables_csv.specs.WholeTables.{IsTableOf, names_of};
ghost use Rattle.tiql_query.specs.Rows.{AreRowsOf};
ghost use Rattle.tables_csv.specs.WholeTexts.{records_text, value_text};
ghost use Rattle.tables_csv.specs.Writers.{HasWritten};
ghost use Rattle.tiql_query.specs.declared.relation.QTable.{QTable};

use base_kit::{List, Memory, Row, Value};
use csv::{ByteRecord, Writer, WriterBuilder};
use std::alloc::Global;
use tiql_query::Column;

/// The bytes of a table: a record of the columns' names, then one for each row, as `csv` writes them
/// (docs/TABLES.md, "Writing"). Each row has a value for each column.
pub fn table_text(
    alloc: Global,
    columns: &List<Column>,
    rows: &List<Row>,
) -> Result<List<u8>, Memory>
    requires { All (λ row. length row ≡ length columns.now) rows.now }
    ensures text { IfOk result (λ bytes. bytes ≡ records_text columns.now rows.now) }
    ensures table { IfOk result (λ bytes. (table : QTable) → table.columns ≡ columns.now → 0 < length columns.now → AreRowsOf table rows.now → IsTableOf bytes table rows.now) }
{
    let mut writer = WriterBuilder::new().from_writer(Vec::new(alloc));
    put(&mut writer, &column_fields(alloc, columns.as_slice())?)?;
    for row in rows.as_slice() {
        put(&mut writer, &value_fields(alloc, row.as_slice())?)?;
    }
    written(writer)
}

// The names of the columns as the fields of a record.
fn column_fields(alloc: Global, columns: &[Column]) -> Result<ByteRecord, Memory>
    ensures fields { IfOk result (λ fields. fields_of fields ≡ names_of columns.now) }
    ensures names { OnOk result (All (λ name. IsTrue (names.is_name name)) (names_of columns.now)) }
{
    let mut fields = ByteRecord::new(alloc);
    for column in columns {
        fields.push_field(column.name.as_str().as_bytes())?;
    }
    Ok(fields)
}

// The values as the fields of a record.
fn value_fields(alloc: Global, row: &[Value]) -> Result<ByteRecord, Memory>
    ensures { IfOk result (λ fields. fields_of fields ≡ map value_text row.now) }
{
    let mut fields = ByteRecord::new(alloc);
    for value in row {
        fields.push_field(value_text(alloc, value)?.as_bytes())?;
    }
    Ok(fields)
}

// A value as its field.
fn value_text(alloc: Global, value: &Value) -> Result<String, Memory>
    ensures { IfOk result (λ text. string_bytes text ≡ value_text value.now) }
{
    match value {
        Value::Int(number) => Ok(format!(in alloc; "{number}")?),
        Value::Text(text) => Ok(String::from_str(alloc, text.as_str())?),
    }
}

// Writes a record.
fn put(writer: &mut Writer<Vec<u8>>, fields: &ByteRecord) -> Result<(), Memory>
    ensures { OnOk result ((text : List ℕ) → HasWritten writer.old text → HasWritten writer.new (text ++ row_text default_writer (fields_of fields.now))) }
{
    let Ok(()) = writer.write_byte_record(fields) else {
        return Err(Memory);
    };
    Ok(())
}

// The bytes that were written.
fn written(writer: Writer<Vec<u8>>) -> Result<List<u8>, Memory>
    ensures { IfOk result (λ bytes. (text : List ℕ) → HasWritten writer text → bytes ≡ text) }
{
    let Ok(bytes) = writer.into_inner() else {
        return Err(Memory);
    };
    Ok(List::from_vec(bytes))
}
