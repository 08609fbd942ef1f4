//! The system's files as a shelf.
ghost use Rattle.std.specs.Prelude.{◌≡◌, ◌+◌, ◌<◌, ◌≤◌, length, vec_len, take, drop, None, IfOk, IfSome, OnOk};
ghost use Rattle.std.specs.Io.KnownBytes.{Consumes, IsAtEnd};

use crate::count::raised;
use crate::{Shelf, ShelfFault};
use std::alloc::{AllocError, Global};
use std::fs;
use std::fs::OpenFile;
use std::io::{ErrorKind, Read};
use std::rt::Files;

/// How much room is made where a file tells no size.
const LEAST_ROOM: usize = 65_536;

/// The files of the system, by their paths. What they hold, and which reads will fail, is not told. An open that finds no
/// file is a miss; every other error is a fault, so a directory is a file that could not be read.
///
/// A fetch asks for the file's size, makes room for it at once, at most `max` bytes, and reads straight into that room,
/// so no byte is moved again. Where a file holds more than its size says, as a pipe does, the room doubles.
#[derive(Debug, Drop)]
pub struct FileShelf<'a, R: Files> {
    files: &'a R,
    misses: u64,
    faults: u64,
}

impl<'a, R: Files> FileShelf<'a, R> {
    /// A shelf of these files, whose counts are 0.
    pub fn new(files: &'a R) -> FileShelf<'a, R>
        ensures misses { result.misses ≡ 0 }
        ensures faults { result.faults ≡ 0 }
    {
        FileShelf {
            files,
            misses: 0,
            faults: 0,
        }
    }
}

impl<'a, R: Files> Shelf for FileShelf<'a, R> {
    ghost held = { λ _. None };

    ghost fails = { λ _. None };

    ghost misses = { λ shelf. shelf.misses };

    ghost faults = { λ shelf. shelf.faults };

    fn fetch(&mut self, alloc: Global, name: &str, max: usize) -> Result<Vec<u8>, ShelfFault> {
        match read_file(alloc, self.files, name, max) {
            Ok(bytes) => Ok(bytes),
            Err(ShelfFault::Absent) => {
                self.misses = raised(self.misses);
                Err(ShelfFault::Absent)
            }
            Err(ShelfFault::Failed) => {
                self.faults = raised(self.faults);
                Err(ShelfFault::Failed)
            }
            Err(ShelfFault::Memory) => Err(ShelfFault::Memory),
        }
    }
}

/// The first `max` bytes of a file.
fn read_file<R: Files>(
    alloc: Global,
    files: &R,
    name: &str,
    max: usize,
) -> Result<Vec<u8>, ShelfFault>
    ensures { IfOk result (λ bytes. length bytes.items ≤ max) }
{
    let mut file = match fs::open(files, name) {
        Ok(file) => file,
        Err(error) if error.kind() == ErrorKind::NotFound => return Err(ShelfFault::Absent),
        Err(_) => return Err(ShelfFault::Failed),
    };
    let room = room_for(&file, max);
    read_up_to(alloc, &mut file, room, max)
}

/// Room for all of the file, and for the turn that finds its end.
fn room_for<F: OpenFile>(file: &F, max: usize) -> usize
    ensures { result ≤ max }
{
    match file.metadata() {
        Ok(metadata) => max.min(metadata.len().saturating_add(1) as usize),
        Err(_) => max.min(LEAST_ROOM),
    }
}

/// The first `max` bytes that the reader gives.
fn read_up_to<F: Read>(
    alloc: Global,
    file: &mut F,
    room: usize,
    max: usize,
) -> Result<Vec<u8>, ShelfFault>
    requires { room ≤ max }
    ensures bound { IfOk result (λ bytes. length bytes.items ≤ max) }
    ensures first { IfOk result (λ bytes. IfSome (F.remaining file.old) (λ left. bytes.items ≡ take max left)) }
{
    let mut bytes = Vec::new(alloc);
    bytes.resize(room, 0)?;
    let filled = fill(file, &mut bytes, max)?;
    bytes.truncate(filled);
    Ok(bytes)
}

/// Fills the front of `bytes`, up to the reader's end or `max`, and says how much of it. Room is made as it is wanted.
fn fill<F: Read>(file: &mut F, bytes: &mut Vec<u8>, max: usize) -> Result<usize, ShelfFault>
    requires { vec_len bytes.old ≤ max }
    ensures within { IfOk result (λ filled. filled ≤ vec_len bytes.new) }
    ensures bound { IfOk result (λ filled. filled ≤ max) }
    ensures first { IfOk result (λ filled. IfSome (F.remaining file.old) (λ left. take filled bytes.new.items ≡ take max left)) }
{
    let mut filled = 0;
    while filled < max {
        let count = read_more(file, bytes, filled, max)?;
        if count == 0 {
            return Ok(filled);
        }
        filled += count;
    }
    Ok(filled)
}

/// One turn of reading, behind the first `filled` bytes, and how many bytes it gave.
fn read_more<F: Read>(
    file: &mut F,
    bytes: &mut Vec<u8>,
    filled: usize,
    max: usize,
) -> Result<usize, ShelfFault>
    requires within { filled ≤ vec_len bytes.old }
    requires wanted { filled < max }
    requires bound { vec_len bytes.old ≤ max }
    ensures bound { vec_len bytes.new ≤ max }
    ensures front { take filled bytes.new.items ≡ take filled bytes.old.items }
    ensures fits { IfOk result (λ count. filled + count ≤ vec_len bytes.new) }
    ensures read { IfOk result (λ count. Consumes (F.remaining file.old) (F.remaining file.new)
        (take count (drop filled bytes.new.items))) }
    ensures end { IfOk result (λ count. count ≡ 0 → IsAtEnd (F.remaining file.new)) }
{
    make_room(bytes, filled, max)?;
    read_at(file, bytes.as_mut_slice(), filled).ok_or(ShelfFault::Failed)
}

/// Makes `bytes` longer than `filled`, where it is not, by doubling it.
fn make_room(bytes: &mut Vec<u8>, filled: usize, max: usize) -> Result<(), AllocError>
    requires within { filled ≤ vec_len bytes.old }
    requires wanted { filled < max }
    requires bound { vec_len bytes.old ≤ max }
    ensures room { OnOk result (filled < vec_len bytes.new) }
    ensures bound { vec_len bytes.new ≤ max }
    ensures front { take filled bytes.new.items ≡ take filled bytes.old.items }
{
    if filled < bytes.len() {
        return Ok(());
    }
    let room = bytes.len().saturating_mul(2).max(LEAST_ROOM).min(max);
    bytes.resize(room, 0)
}

/// One turn of reading, behind the first `at` bytes.
fn read_at<F: Read>(file: &mut F, bytes: &mut [u8], at: usize) -> Option<usize>
    requires { at < length bytes.old }
    ensures front { take at bytes.new ≡ take at bytes.old }
    ensures fits { IfSome result (λ count. at + count ≤ length bytes.new) }
    ensures read { IfSome result (λ count. Consumes (F.remaining file.old) (F.remaining file.new) (take count (drop at bytes.new))) }
    ensures end { IfSome result (λ count. count ≡ 0 → IsAtEnd (F.remaining file.new)) }
{
    file.read(&mut bytes[at..]).ok()
}
