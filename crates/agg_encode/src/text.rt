//! The text of a program.

ghost use Rattle.std.specs.Prelude.{◌≡◌, IfOk};
ghost use Rattle.program_text.specs.Text.{program_bytes};

use crate::Built;
use base_kit::{List, Memory};
use program_text::write_program;
use std::alloc::Global;

/// The text of a program that was built: its formulas, columns, rows and objective (docs/ENCODING.md, "The text of a program"). `Err` is
/// want of memory.
pub fn program_text(alloc: Global, built: &Built<'_>) -> Result<List<u8>, Memory>
    ensures { IfOk result (λ bytes. bytes ≡ program_bytes built.now.fold.parts built.now.map.stands built.now.program) }
{
    write_program(alloc, &built.fold, &built.map, &built.program)
}
