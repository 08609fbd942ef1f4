//! Fetches a whole file, or tells why it is refused.

ghost use Rattle.std.specs.Prelude.{◌≡◌, ◌+◌, ◌^◌, ◌<◌, length, OnOk};
ghost use Rattle.outside_io.specs.Shelves.{later};
ghost use Rattle.job_intake.specs.Visits.{visit};
ghost use Rattle.job_intake.specs.Steps.{Follows, FailsAs, IsRefusedFile, KeepsCounts};
ghost use Rattle.job_intake.specs.Files.{FileComes};

use crate::refusal::{FileFault, Refusal, Stop};
use base_kit::List;
use outside_io::{Shelf, ShelfFault};
use std::alloc::Global;

/// The most bytes of a query's file and of a table's: 16 MiB.
pub const MOST_FILE_BYTES: usize = 16_777_216;

/// The most bytes of an answer's file: 512 MiB.
pub const MOST_ANSWER_BYTES: usize = 536_870_912;

/// Fetches a file of at most `most` bytes. One byte more is asked for, so that the length tells whether it is too long.
pub fn fetch_file<S: Shelf>(
    alloc: Global,
    shelf: &mut S,
    name: &str,
    most: usize,
) -> Result<List<u8>, Stop>
    requires { most + 1 < 2 ^ 64 }
    ensures held { S.held shelf.new ≡ S.held shelf.old }
    ensures moved { S.fails shelf.new ≡ later (S.fails shelf.old) }
    ensures counts { OnOk result (KeepsCounts (visit S.held S.fails S.misses S.faults shelf.old shelf.new)) }
    ensures failed { FailsAs (S.faults shelf.old) (S.faults shelf.new) result }
    ensures comes { Follows (FileComes (visit S.held S.fails S.misses S.faults shelf.old shelf.new) most name.now) result }
{
    match shelf.fetch(alloc, name, most + 1) {
        Ok(bytes) => {
            if bytes.len() > most {
                refuse(alloc, name, FileFault::TooLong)
            } else {
                Ok(List::from_vec(bytes))
            }
        }
        Err(ShelfFault::Absent) => refuse(alloc, name, FileFault::Absent),
        Err(ShelfFault::Failed) => refuse(alloc, name, FileFault::ReadFailed),
        Err(ShelfFault::Memory) => Err(Stop::Memory),
    }
}

/// The refusal of the file of this name.
fn refuse(alloc: Global, name: &str, why: FileFault) -> Result<List<u8>, Stop>
    ensures { IsRefusedFile name.now why result }
{
    let name = List::from_slice(alloc, name.as_bytes())?;
    Err(Stop::Refused(Refusal::File { name, why }))
}
