//! A record as a row of a table: a value for each column.
ghost use Rattle.std.specs.Prelude.{◌≡◌, ◌≢◌, ◌<◌, ◌^◌, true, length, IfOk, IfErr};
ghost use Rattle.csv.specs.Records.{fields_of};
ghost use Rattle.tiql_query.specs.declared.relation.Column.{Column};
ghost use Rattle.tables_csv.specs.Values.{AreValues, IsFieldFault, IsRowFault, IsValue};

use crate::TableFault;
use crate::number::number_of;
use base_kit::{List, Row, Txt, TxtFault, Value};
use csv::ByteRecord;
use std::alloc::Global;
use std::str;
use tiql_query::Column;

/// The record's values, one for each column, or what is wrong with it, told with this number of the row
/// (docs/TABLES.md, "Refusals").
pub(crate) fn row_of(
    alloc: Global,
    fields: &ByteRecord,
    columns: &[Column],
    row: u32,
) -> Result<Row, TableFault>
    requires { length columns.now < 2 ^ 32 }
    ensures values { IfOk result (λ values. AreValues columns.now (fields_of fields.now) values) }
    ensures fault { IfErr result (λ told. told ≢ TableFault.Memory → IsRowFault columns.now (fields_of fields.now) row told) }
{
    if fields.len() != columns.len() {
        return Err(TableFault::Ragged { row });
    }
    let mut values = List::from_vec(Vec::with_capacity(alloc, columns.len())?);
    for field in fields.iter() {
        let at = values.len();
        values.push(value_of(alloc, field, &columns[at], row, at as u32 + 1)?)?;
    }
    Ok(values)
}

// The value of the field at this row and column.
fn value_of(
    alloc: Global,
    field: &[u8],
    column: &Column,
    row: u32,
    number: u32,
) -> Result<Value, TableFault>
    ensures value { IfOk result (λ value. IsValue column.now field.now value) }
    ensures fault { IfErr result (λ told. told ≢ TableFault.Memory → IsFieldFault column.now field.now row number told) }
{
    if column.text {
        return text_of(alloc, field, row, number);
    }
    match number_of(field) {
        Some(value) => Ok(Value::Int(value)),
        None => Err(TableFault::BadNumber {
            row,
            column: number,
        }),
    }
}

// The text of the field at this row and column, in a column of texts.
fn text_of(alloc: Global, field: &[u8], row: u32, column: u32) -> Result<Value, TableFault>
    ensures value { IfOk result (λ value. (it : Column) → it.text ≡ true → IsValue it field.now value) }
    ensures fault { IfErr result (λ told. told ≢ TableFault.Memory → (it : Column) → it.text ≡ true → IsFieldFault it field.now row column told) }
{
    let Ok(text) = str::from_utf8(field) else {
        return Err(TableFault::NotUtf8 { row, column });
    };
    match Txt::new(alloc, text) {
        Ok(text) => Ok(Value::Text(text)),
        Err(TxtFault::TooLong) => Err(TableFault::TooLongText { row, column }),
        Err(TxtFault::Memory) => Err(TableFault::Memory),
    }
}
