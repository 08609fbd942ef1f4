//! The sections of an answer: the text of each hypothetical table of a world.

ghost use Rattle.std.specs.Prelude.{◌≡◌, ◌≤◌, length, IfOk};
ghost use Rattle.answer_text.specs.Written.{AreWritten, IsWritten};
ghost use Rattle.program_answer.specs.Sections.{AreFit, IsFit};

use answer_text::WorldText;
use base_kit::{Duplicate, List, Memory};
use std::alloc::Global;
use tables_csv::table_text;
use tiql_query::QHypo;
use world_def::WorldTable;

/// A section for each hypothetical table, with the rows that it has in a world.
pub fn sections_of(
    alloc: Global,
    hypos: &[QHypo],
    tables: &[WorldTable],
) -> Result<List<WorldText>, Memory>
    requires { AreFit hypos.now tables.now }
    ensures { IfOk result (AreWritten hypos.now tables.now) }
{
    let mut sections = List::new(alloc);
    for (at, hypo) in hypos.iter().enumerate() {
        sections.push(section_of(alloc, hypo, &tables[at])?)?;
    }
    Ok(sections)
}

/// The section of a hypothetical table.
fn section_of(alloc: Global, hypo: &QHypo, table: &WorldTable) -> Result<WorldText, Memory>
    requires { IsFit hypo.now table.now }
    ensures { IfOk result (IsWritten hypo.now table.now) }
{
    let bytes = table_text(alloc, &hypo.columns, &table.rows)?;
    Ok(WorldText {
        name: hypo.name.copy(alloc)?,
        rows: table.rows.len() as u32,
        bytes,
    })
}
