//! The whole text.
ghost use Rattle.std.specs.Prelude.{◌≡◌, ◌≤◌, length, IfOk};
ghost use Rattle.program_text.specs.Text as spec;

use crate::columns::put_columns;
use crate::nodes::put_nodes;
use crate::put::put;
use crate::rows::{put_aim, put_rows};
use base_kit::{List, Memory};
use bool_encode::ColumnMap;
use ip_rows::Program;
use prov_fold::Fold;
use std::alloc::Global;

/// The text of a program: the formulas in their order, the columns with what they stand for, the rows, and what is to be least.
/// A line begins with the number of what it tells, from 0; the pairs of a Min are numbered from 1. The one fault is want of memory
/// (docs/ENCODING.md, "The text of a program").
#[tactic(auto, unfolding(crate::specs::Text::program_bytes))]
pub fn write_program(
    alloc: Global,
    fold: &Fold<'_>,
    map: &ColumnMap,
    program: &Program,
) -> Result<List<u8>, Memory>
    ensures { IfOk result (λ bytes. bytes ≡ spec.program_bytes fold.now.parts map.now.stands program.now) }
{
    let mut out = Vec::new(alloc);
    put(&mut out, b"tiresias program 1\n")?;
    put_nodes(&mut out, fold.prov())?;
    put_columns(&mut out, map.stands.as_slice(), program.columns.as_slice())?;
    put_rows(&mut out, program.rows.as_slice())?;
    put_aim(&mut out, program.constant, program.aim.as_slice())?;
    put(&mut out, b"end\n")?;
    Ok(List::from_vec(out))
}
