//! The records of a file's bytes, taken one after another from the crate `csv`.
ghost use Rattle.std.specs.Prelude.{◌≡◌, false, IfOk};
ghost use Rattle.csv.specs.Reading.{reader_state, source_of};
ghost use Rattle.csv.specs.Records.{fields_of};
ghost use Rattle.csv.specs.declared.parser.State.TheVariants as state;
ghost use Rattle.tables_csv.specs.Passes.{Passes};
ghost use Rattle.tables_csv.specs.Records.{IsOpen, slice_bytes};
ghost use Rattle.tables_csv.specs.WholeTables as spec;

use base_kit::Memory;
use csv::{ByteRecord, Reader, ReaderBuilder};
use std::alloc::Global;

// `csv` takes off a byte order mark that it meets, so a text that begins with one is to be handled before.
const MARK: [u8; 3] = [0xEF, 0xBB, 0xBF];

/// Whether a byte order mark stands before the text.
pub(crate) fn is_marked(bytes: &[u8]) -> bool
    ensures { result ≡ spec.is_marked bytes.now }
{
    bytes.starts_with(&MARK)
}

/// The bytes behind a byte order mark, where they begin with one.
#[tactic(auto, unfolding(crate::specs::WholeTables::without_mark))]
pub(crate) fn without_mark(bytes: &[u8]) -> &[u8]
    ensures { result.now ≡ spec.without_mark bytes.now }
{
    if is_marked(bytes) { &bytes[3..] } else { bytes }
}

/// A reader of the records of these bytes, which begin with no byte order mark. The first record is one like the others,
/// and records may differ in length.
pub(crate) fn reader_of(alloc: Global, bytes: &[u8]) -> Reader<&[u8]>
    requires { spec.is_marked bytes.now ≡ false }
    ensures open { IsOpen result }
    ensures source { source_of slice_bytes result ≡ Some bytes.now }
    ensures state { reader_state result ≡ state.StartRecord }
{
    ReaderBuilder::new()
        .has_headers(false)
        .flexible(true)
        .from_reader(alloc, bytes)
}

/// Takes the next record, if there is one. A reader over a slice has no failure of its own: what `csv` still may answer is
/// told as want of memory.
pub(crate) fn take_record(
    reader: &mut Reader<&[u8]>,
    fields: &mut ByteRecord,
) -> Result<bool, Memory>
    requires { IsOpen reader.old }
    ensures { IfOk result (λ found. Passes reader.old reader.new found (fields_of fields.new)) }
{
    let Ok(found) = reader.read_byte_record(fields) else {
        return Err(Memory);
    };
    Ok(found)
}
