//! Whole runs: that they succeed where there is memory, and faults at chosen calls of the shelf and the sink.

use base_kit::{List, Status, Txt};
use job_intake::{Task, take_job};
use outside_io::{FailPut, Held, MemoryShelf, MemorySink, SureShelf, SureSink};
use std::alloc::Global;
use std::process::Abort;
use std::test::Fail;
use tiresias_core::run;

const ONE_WORLD: &str =
    "TABLE item (id INT, qty INT); HYPO h FROM item SET qty IN 1 .. 1; REQUIRE ALL h HAVE qty >= 2; MINIMIZE SUM(qty) FROM h;";

const ONE_MEETS: &str =
    "TABLE item (id INT, qty INT); HYPO h FROM item SET qty IN 1 .. 1; REQUIRE ALL h HAVE qty >= 0; MINIMIZE SUM(qty) FROM h;";

const KEYED: &str =
    "TABLE item (id INT, price INT, qty INT) KEY (id); HYPO h FROM item SET qty IN qty .. qty; MINIMIZE SUM(qty) FROM h;";

const OUTSIDE: &str =
    "TABLE item (id INT, cost INT) KEY (id); HYPO h FROM item SET cost IN 2 .. 3 WHERE id >= 2 DROP; REQUIRE SOME h HAVE cost = 3; MINIMIZE SUM(cost) FROM h;";

const VIEWED: &str =
    "TABLE item (id INT, qty INT); HYPO h FROM item SET qty IN qty .. qty; VIEW tot AS SELECT SUM(h.qty) AS n FROM h; REQUIRE ALL tot HAVE n = 3; MAXIMIZE SUM(2 * n) FROM tot;";

// Its view has 8^6 rows over a table of 8.
const CROSSED: &str =
    "TABLE item (id INT, qty INT); VIEW v AS SELECT a.id FROM item AS a, item AS b, item AS c, item AS d, item AS e, item AS f; REQUIRE SOME v HAVE id = 1; FIND;";

const TABLE: &str = "id,qty\n1,0\n2,3\n";

const EIGHT: &str = "id,qty\n1,0\n2,0\n3,0\n4,0\n5,0\n6,0\n7,0\n8,0\n";

const PRICED: &str = "id,price,qty\n1,3,5\n2,2,7\n";

const TWO_COSTS: &str = "id,cost\n1,1\n2,9\n";

const OUTSIDE_ANSWER: &str = "tiresias answer 1\n\
    optimal 4\n\
    program 0 0 0\n\
    world h 2 16\n\
    id,cost\n\
    1,1\n\
    2,3\n\
    part 1 columns 0 1\n\
    best 4\n\
    split 0 0 plain\n\
    split 1 1 plain\n\
    split 1 0 plain\n\
    fixed\n\
    fixed\n\
    split 1 2 plain\n\
    fixed\n\
    fixed\n\
    split 1 1 plain\n\
    split 1 0 plain\n\
    fixed\n\
    fixed\n\
    split 1 2 plain\n\
    fixed\n\
    fixed\n\
    end\n";

// The same with four nodes, of which one is open.
const OPEN_ANSWER: &str = "tiresias answer 1\n\
    unfinished 4\n\
    program 0 0 0\n\
    part 1 columns 0 1\n\
    best none\n\
    split 0 0 plain\n\
    split 1 1 plain\n\
    split 1 0 plain\n\
    fixed\n\
    open\n\
    open\n\
    open\n\
    end\n";

const KEYED_ANSWER: &str =
    "tiresias answer 1\noptimal 12\nprogram 0 0 0\nworld h 2 25\nid,price,qty\n1,3,5\n2,2,7\nend\n";

const VIEWED_ANSWER: &str =
    "tiresias answer 1\noptimal 6\nprogram 0 0 0\nworld h 2 15\nid,qty\n1,0\n2,3\nend\n";

const FIXED_ANSWER: &str = "tiresias answer 1\nimpossible\nprogram 0 0 0\nrow 0\nend\n";

/// A query, its table, the answer that is there, the words, and how the run ends.
type Row = (
    &'static str,
    &'static str,
    &'static str,
    &'static str,
    Status,
    &'static str,
);

const ROWS: [Row; 10] = [
    (
        OUTSIDE,
        TWO_COSTS,
        "",
        "solve q d",
        Status::Done,
        OUTSIDE_ANSWER,
    ),
    (
        OUTSIDE,
        TWO_COSTS,
        "",
        "solve q d 4",
        Status::Unfinished,
        OPEN_ANSWER,
    ),
    (
        ONE_WORLD,
        TABLE,
        "",
        "solve q d",
        Status::Impossible,
        FIXED_ANSWER,
    ),
    (KEYED, PRICED, "", "solve q d", Status::Done, KEYED_ANSWER),
    (VIEWED, TABLE, "", "solve q d", Status::Done, VIEWED_ANSWER),
    (
        CROSSED,
        EIGHT,
        "",
        "solve q d",
        Status::Size,
        "refused: too many view rows v 200000\n",
    ),
    (
        CROSSED,
        EIGHT,
        FIXED_ANSWER,
        "check q d a",
        Status::Size,
        "refused: too many view rows v 200000\n",
    ),
    (
        OUTSIDE,
        TWO_COSTS,
        OUTSIDE_ANSWER,
        "check q d a",
        Status::Done,
        "accepted optimal 4\n",
    ),
    (
        ONE_MEETS,
        TABLE,
        FIXED_ANSWER,
        "check q d a",
        Status::Rejected,
        "rejected: row holds 0 0\n",
    ),
    (
        KEYED,
        PRICED,
        "",
        "check q d a",
        Status::Unreadable,
        "refused: unreadable answer 1\n",
    ),
];

/// A file of the shelf.
fn held(alloc: Global, name: &str, bytes: &[u8]) -> Result<Held, Fail> {
    let name = Txt::new(alloc, name)?;
    let bytes = List::from_slice(alloc, bytes)?;
    Ok(Held { name, bytes })
}

/// The words of a text, parted by spaces.
fn words_of(alloc: Global, text: &str) -> Result<Vec<String>, Fail> {
    let mut words = Vec::new(alloc);
    for word in text.split_whitespace() {
        words.push(String::from_str(alloc, word)?)?;
    }
    Ok(words)
}

/// A query, its table, and an answer, by their names.
fn files_of(
    rt: &impl Abort,
    alloc: Global,
    query: &str,
    table: &[u8],
    answer: &str,
) -> Result<List<Held>, Fail> {
    let mut files = List::new(alloc);
    files.push(held(alloc, "q", query.as_bytes())?)?;
    files.push(held(alloc, "d/item.csv", table)?)?;
    files.push(held(alloc, "a", answer.as_bytes())?)?;
    assert!(rt; Held::are_distinct(files.as_slice()));
    Ok(files)
}

/// Runs the words over the files, where these fetches fail, and asserts how it ends.
fn ends(
    rt: &impl Abort,
    alloc: Global,
    files: List<Held>,
    words: &str,
    failing: &[u32],
    status: Status,
    text: &str,
) -> Result<(), Fail> {
    assert!(rt; Held::are_distinct(files.as_slice()));
    let mut shelf = MemoryShelf::new(files, List::from_slice(alloc, failing)?);
    let mut out = MemorySink::new(alloc, List::new(alloc));
    let words = words_of(alloc, words)?;
    let ended = run(alloc, words.as_slice(), &mut shelf, &mut out);
    assert_eq!(rt; ended, status);
    assert_eq!(rt; out.bytes(), text.as_bytes());
    Ok(())
}

#[test]
fn ample_memory_answers(rt: HostRuntime) -> Result<(), Fail> {
    for (query, table, answer, words, status, text) in ROWS {
        let files = files_of(&rt, rt.alloc(), query, table.as_bytes(), answer)?;
        ends(&rt, rt.alloc(), files, words, &[], status, text)?;
    }
    Ok(())
}

#[test]
fn ample_memory_takes_a_job(rt: HostRuntime) -> Result<(), Fail> {
    let alloc = rt.alloc();
    let files = files_of(&rt, alloc, KEYED, PRICED.as_bytes(), "")?;
    assert!(rt; Held::are_distinct(files.as_slice()));
    let mut shelf = SureShelf::new(files);
    let words = words_of(alloc, "solve q d 30")?;
    let job = take_job(alloc, words.as_slice(), &mut shelf).map_err(|_| "no job")?;
    assert_eq!(rt; job.tables.len(), 1);
    assert!(rt; matches!(job.task, Task::Solve { nodes: 30 }));
    Ok(())
}

#[test]
fn a_fetch_that_fails_is_told_with_its_name(rt: HostRuntime) -> Result<(), Fail> {
    let alloc = rt.alloc();
    let lines = [
        (0, "refused: read failed q\n"),
        (1, "refused: read failed d/item.csv\n"),
        (2, "refused: read failed a\n"),
    ];
    for (call, line) in lines {
        let files = files_of(&rt, alloc, KEYED, PRICED.as_bytes(), "")?;
        ends(
            &rt,
            alloc,
            files,
            "check q d a",
            &[call],
            Status::Read,
            line,
        )?;
    }
    Ok(())
}

/// The status over a shelf and a sink that never fail.
fn ended(rt: &impl Abort, alloc: Global, query: &str, words: &str) -> Result<Status, Fail> {
    let files = files_of(rt, alloc, query, TABLE.as_bytes(), "")?;
    assert!(rt; Held::are_distinct(files.as_slice()));
    let mut shelf = SureShelf::new(files);
    let mut out = SureSink::new(alloc);
    let words = words_of(alloc, words)?;
    Ok(run(alloc, words.as_slice(), &mut shelf, &mut out))
}

#[test]
fn a_sure_outside_never_fails(rt: HostRuntime) -> Result<(), Fail> {
    assert_eq!(rt;
        ended(&rt, rt.alloc(), ONE_WORLD, "solve q d")?,
        Status::Impossible
    );
    Ok(())
}

#[test]
fn a_write_that_fails_is_told(rt: HostRuntime) -> Result<(), Fail> {
    let alloc = rt.alloc();
    let files = files_of(&rt, alloc, ONE_WORLD, TABLE.as_bytes(), "")?;
    assert!(rt; Held::are_distinct(files.as_slice()));
    let mut shelf = MemoryShelf::new(files, List::new(alloc));
    let failing = List::from_slice(alloc, &[FailPut { call: 0, taken: 10 }])?;
    let mut out = MemorySink::new(alloc, failing);
    let words = words_of(alloc, "solve q d")?;
    let ended = run(alloc, words.as_slice(), &mut shelf, &mut out);
    assert_eq!(rt; ended, Status::Write);
    assert_eq!(rt; out.bytes(), b"tiresias a".as_slice());
    Ok(())
}
