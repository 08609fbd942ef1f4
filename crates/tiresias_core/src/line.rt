//! Lines of words, names and numbers.

ghost use Rattle.std.specs.Prelude.{◌≡◌, ◌∷◌, ◌++◌, [], IfOk};

use base_kit::{List, Memory};
use std::alloc::Global;

/// What stands before a name, the name, and what stands behind it, as one line.
pub(crate) fn named_line(
    alloc: Global,
    before: &str,
    name: &[u8],
    behind: &str,
) -> Result<List<u8>, Memory>
    ensures { IfOk result (λ line. line ≡ before.now ++ name.now ++ behind.now ++ 10 ∷ []) }
{
    let mut line = Vec::from_slice(alloc, before.as_bytes())?;
    line.extend_from_slice(name)?;
    line.extend_from_slice(behind.as_bytes())?;
    line.push(b'\n')?;
    Ok(List::from_vec(line))
}

/// A text as a line.
pub(crate) fn line_of(alloc: Global, text: &str) -> Result<List<u8>, Memory>
    ensures { IfOk result (λ line. line ≡ text.now ++ 10 ∷ []) }
{
    let mut line = Vec::from_slice(alloc, text.as_bytes())?;
    line.push(b'\n')?;
    Ok(List::from_vec(line))
}
