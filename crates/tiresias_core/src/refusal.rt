//! Refusals: their statuses and lines.

ghost use Rattle.std.specs.Prelude.{◌≡◌, IfOk};
ghost use Rattle.tiresias_core.specs.Lines as spec;

use crate::line::{line_of, named_line};
use base_kit::{List, Memory, Place, Status};
use job_intake::{FileFault, Refusal};
use std::alloc::Global;
use tables_csv::TableFault;
use tiql_check::SoundFault;

/// The status of a refusal.
pub(crate) fn refusal_status(why: &Refusal) -> Status
    ensures { result ≡ spec.refusal_status why.now }
{
    match why {
        Refusal::Words => Status::Words,
        Refusal::File { .. } => Status::Read,
        Refusal::Syntax(_) => Status::Query,
        Refusal::Unsound(_) => Status::Query,
        Refusal::Table { .. } => Status::Tables,
        Refusal::EmptyBounds { .. } => Status::Tables,
        Refusal::TooWide { .. } => Status::Size,
        Refusal::TooManyWorldColumns => Status::Size,
        Refusal::TooManyColumns { .. } => Status::Size,
        Refusal::PartTooLarge { .. } => Status::Size,
        Refusal::Unreadable { .. } => Status::Unreadable,
    }
}

/// The line of a refusal.
pub(crate) fn refusal_line(alloc: Global, why: &Refusal) -> Result<List<u8>, Memory>
    ensures { IfOk result (λ line. line ≡ spec.refusal_line why.now) }
{
    match why {
        Refusal::Words => line_of(alloc, "refused: words"),
        Refusal::File { name, why } => file_line(alloc, name.as_slice(), *why),
        Refusal::Syntax(place) => line_at(alloc, "syntax", *place),
        Refusal::Unsound(fault) => rule_line(alloc, *fault),
        Refusal::Table { table, why } => table_line(alloc, table.as_slice(), *why),
        Refusal::EmptyBounds { hypo, row } => {
            let behind = format!(in alloc; " {row}")?;
            named_line(
                alloc,
                "refused: empty bounds ",
                hypo.as_slice(),
                behind.as_str(),
            )
        }
        Refusal::TooWide { hypo, number } => wide_line(alloc, hypo.as_slice(), *number),
        Refusal::TooManyWorldColumns => {
            line_of(alloc, "refused: too many world columns 20000000")
        }
        Refusal::TooManyColumns { count } => {
            let text = format!(in alloc; "refused: too many columns {count}")?;
            line_of(alloc, text.as_str())
        }
        Refusal::PartTooLarge { columns } => {
            let text = format!(in alloc; "refused: part too large 1 {columns} 0")?;
            line_of(alloc, text.as_str())
        }
        Refusal::Unreadable { line } => {
            let text = format!(in alloc; "refused: unreadable answer {line}")?;
            line_of(alloc, text.as_str())
        }
    }
}

/// The line of a value or bound over the relation of this name that is too large.
pub(crate) fn wide_line(alloc: Global, name: &[u8], number: i128) -> Result<List<u8>, Memory>
    ensures { IfOk result (λ line. line ≡ spec.wide_line name.now number) }
{
    let behind = format!(in alloc; " {number}")?;
    named_line(alloc, "refused: range too wide ", name, behind.as_str())
}

/// The line of a file that is refused.
fn file_line(alloc: Global, name: &[u8], why: FileFault) -> Result<List<u8>, Memory>
    ensures { IfOk result (λ line. line ≡ spec.file_line name.now why) }
{
    match why {
        FileFault::Absent => named_line(alloc, "refused: absent ", name, ""),
        FileFault::ReadFailed => named_line(alloc, "refused: read failed ", name, ""),
        FileFault::TooLong => named_line(alloc, "refused: too long ", name, ""),
    }
}

/// The line of a query that is refused at this place.
fn line_at(alloc: Global, words: &str, place: Place) -> Result<List<u8>, Memory>
    ensures { IfOk result (λ line. line ≡ spec.line_at words.now place) }
{
    let Place { line, column } = place;
    let text = format!(in alloc; "refused: {words} {line}:{column}")?;
    line_of(alloc, text.as_str())
}

/// The line of a query that is not sound.
fn rule_line(alloc: Global, fault: SoundFault) -> Result<List<u8>, Memory>
    ensures { IfOk result (λ line. line ≡ spec.rule_line fault) }
{
    let (words, place) = rule_of(fault)?;
    line_at(alloc, words, place)
}

/// The words of a rule, and where it is broken.
fn rule_of(fault: SoundFault) -> Result<(&'static str, Place), Memory>
    ensures { IfOk result (λ rule. (rule.0.now ≡ spec.rule_words fault) × (rule.1 ≡ spec.rule_place fault)) }
{
    match fault {
        SoundFault::UnknownName(place) => Ok(("unknown name", place)),
        SoundFault::SameName(place) => Ok(("same name", place)),
        SoundFault::NoSuchKeyColumn(place) => Ok(("no such key column", place)),
        SoundFault::KeyUnknown(place) => Ok(("key unknown", place)),
        SoundFault::KeyMissing(place) => Ok(("key missing", place)),
        SoundFault::WrongType(place) => Ok(("wrong type", place)),
        SoundFault::NotFixed(place) => Ok(("not fixed", place)),
        SoundFault::NotLinear(place) => Ok(("not linear", place)),
        SoundFault::NotGrouped(place) => Ok(("not grouped", place)),
        SoundFault::Memory => Err(Memory),
    }
}

/// The line of a file that is not a valid table.
fn table_line(alloc: Global, table: &[u8], why: TableFault) -> Result<List<u8>, Memory>
    ensures { IfOk result (λ line. line ≡ spec.table_line table.now why) }
{
    match why {
        TableFault::Header => named_line(alloc, "refused: header ", table, ""),
        TableFault::TooManyRows => named_line(alloc, "refused: too many rows ", table, ""),
        TableFault::Ragged { row } => {
            let behind = format!(in alloc; " {row}")?;
            named_line(alloc, "refused: ragged ", table, behind.as_str())
        }
        TableFault::NotUtf8 { row, column } => {
            cell_line(alloc, "refused: not utf8 ", table, row, column)
        }
        TableFault::TooLongText { row, column } => {
            cell_line(alloc, "refused: too long text ", table, row, column)
        }
        TableFault::BadNumber { row, column } => {
            cell_line(alloc, "refused: bad number ", table, row, column)
        }
        TableFault::SameKey { row, earlier } => {
            cell_line(alloc, "refused: same key ", table, row, earlier)
        }
        TableFault::Memory => Err(Memory),
    }
}

/// The line of two numbers behind the name of a table.
fn cell_line(
    alloc: Global,
    words: &str,
    table: &[u8],
    one: u32,
    other: u32,
) -> Result<List<u8>, Memory>
    ensures { IfOk result (λ line. line ≡ spec.cell_line words.now table.now one other) }
{
    let behind = format!(in alloc; " {one} {other}")?;
    named_line(alloc, words, table, behind.as_str())
}
