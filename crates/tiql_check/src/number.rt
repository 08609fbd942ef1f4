//! Numbers of relations, sources and columns.
ghost use Rattle.std.specs.Prelude.{◌≡◌, IfOk};

use base_kit::Memory;

/// The number of 32 bits that is this index. Where there is none, a query would have more than 2^32 parts, and memory is wanting.
pub fn number_of(index: usize) -> Result<u32, Memory>
    ensures number { IfOk result (λ number. number ≡ index) }
{
    match u32::try_from(index) {
        Ok(number) => Ok(number),
        Err(_) => Err(Memory),
    }
}
