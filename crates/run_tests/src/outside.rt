//! Each shelf and each sink once, with memory to spare.

use base_kit::{List, Txt};
use outside_io::{
    FailPut, FileShelf, Held, MemoryShelf, MemorySink, Shelf, ShelfFault, Sink, SinkFault, StdSink,
    SureShelf, SureSink,
};
use std::io::{ErrorKind, Write};
use std::test::Fail;
use std::{fs, io};

fn two_files(rt: &HostRuntime) -> Result<List<Held>, Fail> {
    let mut held = List::new(rt.alloc());
    held.push(Held {
        name: Txt::new(rt.alloc(), "q")?,
        bytes: List::from_slice(rt.alloc(), b"FIND;")?,
    })?;
    held.push(Held {
        name: Txt::new(rt.alloc(), "d/item.csv")?,
        bytes: List::new(rt.alloc()),
    })?;
    Ok(held)
}

fn fetched<S: Shelf>(
    rt: &HostRuntime,
    shelf: &mut S,
    name: &str,
    max: usize,
) -> Result<String, ShelfFault> {
    let bytes = shelf.fetch(rt.alloc(), name, max)?;
    String::from_utf8(bytes).map_err(|_| ShelfFault::Failed)
}

#[test]
fn shelves(rt: HostRuntime) -> Result<(), Fail> {
    let held = two_files(&rt)?;
    assert!(rt; Held::are_distinct(held.as_slice()));
    let mut shelf = MemoryShelf::new(held, List::from_slice(rt.alloc(), &[1, 4])?);
    assert_eq!(rt; fetched(&rt, &mut shelf, "q", 100)?.as_str(), "FIND;");
    assert_eq!(rt; fetched(&rt, &mut shelf, "q", 100), Err(ShelfFault::Failed));
    assert_eq!(rt; fetched(&rt, &mut shelf, "q", 4)?.as_str(), "FIND");
    assert_eq!(rt; fetched(&rt, &mut shelf, "x", 4), Err(ShelfFault::Absent));
    assert_eq!(rt; fetched(&rt, &mut shelf, "x", 4), Err(ShelfFault::Failed));

    let held = two_files(&rt)?;
    assert!(rt; Held::are_distinct(held.as_slice()));
    let mut shelf = SureShelf::new(held);
    assert_eq!(rt; fetched(&rt, &mut shelf, "q", 5)?.as_str(), "FIND;");
    assert_eq!(rt; fetched(&rt, &mut shelf, "d/item.csv", 5)?.as_str(), "");
    assert_eq!(rt;
        fetched(&rt, &mut shelf, "item.csv", 5),
        Err(ShelfFault::Absent)
    );
    Ok(())
}

#[test]
fn sinks(rt: HostRuntime) -> Result<(), Fail> {
    let failing = [FailPut { call: 1, taken: 2 }, FailPut { call: 2, taken: 9 }];
    let mut sink = MemorySink::new(rt.alloc(), List::from_slice(rt.alloc(), &failing)?);
    assert_eq!(rt; sink.put(rt.alloc(), b"abc"), Ok(()));
    assert_eq!(rt; sink.put(rt.alloc(), b"def"), Err(SinkFault::Failed));
    assert_eq!(rt; sink.put(rt.alloc(), b"gh"), Err(SinkFault::Failed));
    assert_eq!(rt; sink.put(rt.alloc(), b"i"), Ok(()));
    assert_eq!(rt; sink.bytes(), b"abcdeghi".as_slice());

    let mut sink = SureSink::new(rt.alloc());
    assert_eq!(rt; sink.put(rt.alloc(), b"abc"), Ok(()));
    assert_eq!(rt; sink.put(rt.alloc(), b"d"), Ok(()));
    assert_eq!(rt; sink.bytes(), b"abcd".as_slice());
    Ok(())
}

#[test]
fn files(rt: HostRuntime) -> Result<(), Fail> {
    let file = "outside_io_test.csv";
    fs::write(&rt, file, "id,qty\n1,0\n")?;
    let mut shelf = FileShelf::new(&rt);
    assert_eq!(rt;
        fetched(&rt, &mut shelf, file, 100)?.as_str(),
        "id,qty\n1,0\n"
    );
    assert_eq!(rt; fetched(&rt, &mut shelf, file, 6)?.as_str(), "id,qty");
    assert_eq!(rt;
        fetched(&rt, &mut shelf, "outside_io_test.csv/item.csv", 6),
        Err(ShelfFault::Failed)
    );
    fs::remove_file(&rt, file)?;
    assert_eq!(rt; fetched(&rt, &mut shelf, file, 6), Err(ShelfFault::Absent));
    assert_eq!(rt;
        fetched(&rt, &mut shelf, "nosuch/item.csv", 6),
        Err(ShelfFault::Absent)
    );
    assert_eq!(rt; fetched(&rt, &mut shelf, ".", 6), Err(ShelfFault::Failed));
    assert_eq!(rt;
        fetched(&rt, &mut shelf, "/proc/self/comm", 2)?.len(),
        2,
        "a file that tells no size"
    );
    Ok(())
}

#[test]
fn writers(rt: HostRuntime) -> Result<(), Fail> {
    let mut narrow = Narrow {
        taken: Vec::new(rt.alloc()),
        room: 9,
    };
    {
        let mut sink = StdSink::new(&mut narrow);
        assert_eq!(rt; sink.put(rt.alloc(), b"abcde"), Ok(()));
        assert_eq!(rt; sink.put(rt.alloc(), b"fghijk"), Err(SinkFault::Failed));
    }
    assert_eq!(rt; narrow.taken.as_slice(), b"abcdefghi".as_slice());
    let mut sink = StdSink::new(rt.stdout());
    assert_eq!(rt; sink.put(rt.alloc(), b"\n"), Ok(()));
    Ok(())
}

/// A writer that takes two bytes a turn, and no more than `room` in all.
#[derive(Drop)]
struct Narrow {
    taken: Vec<u8>,
    room: usize,
}

impl Write for Narrow {
    fn write(&mut self, bytes: &[u8]) -> io::Result<usize> {
        let count = bytes.len().min(2).min(self.room);
        if count == 0 {
            return Err(io::Error::from(ErrorKind::StorageFull));
        }
        self.taken.extend_from_slice(&bytes[..count])?;
        self.room -= count;
        Ok(count)
    }

    fn flush(&mut self) -> io::Result<()> {
        Ok(())
    }
}
