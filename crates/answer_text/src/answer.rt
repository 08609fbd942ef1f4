//! What an answer says.

use base_kit::{Duplicate, List, Memory, Name};
use branch_tree::Branches;
use std::alloc::Global;

/// The rows of one hypothetical table in the world that an answer names (docs/ANSWERS.md).
#[derive(Debug, Drop)]
pub struct WorldText {
    /// The hypothetical table.
    pub name: Name,
    /// How many rows it has in this world, the header not counted.
    pub rows: u32,
    /// The table's text, fewer than 2^32 bytes. An answer may have any bytes here.
    pub bytes: List<u8>,
}

/// What was found in one part of a program (docs/ANSWERS.md).
#[derive(Debug, Drop)]
pub struct PartAnswer {
    /// The part's number, counted from 1.
    pub number: u32,
    /// The program's columns that the part has, rising.
    pub columns: List<u32>,
    /// The least value that was found, or none. It is not -2^127.
    pub best: Option<i128>,
    /// How the part's box was split.
    pub tree: Branches,
}

/// How the work ended (docs/ANSWERS.md).
#[derive(Debug, Drop)]
pub enum Verdict {
    /// A best world was found: one text for each hypothetical table, in their order, and every part.
    Optimal {
        objective: i64,
        worlds: List<WorldText>,
        parts: List<PartAnswer>,
    },
    /// No world will do, since this row of the program, counted from 0, has no column left and fails.
    FalseRow {
        row: u32,
    },
    /// No world will do, since this part has no whole point.
    NoWorld {
        part: PartAnswer,
    },
    /// So many nodes were worked, and some boxes have not been.
    Unfinished {
        nodes: u32,
        parts: List<PartAnswer>,
    },
}

/// An answer: the size of the program that was solved, and how the work ended (docs/ANSWERS.md).
#[derive(Debug, Drop)]
pub struct Answer {
    /// The program's columns.
    pub columns: u32,
    /// The program's rows.
    pub rows: u32,
    /// The formulas of which the program was made.
    pub formulas: u32,
    pub verdict: Verdict,
}

impl Duplicate for WorldText {
    fn copy(&self, alloc: Global) -> Result<WorldText, Memory> {
        Ok(WorldText {
            name: self.name.copy(alloc)?,
            rows: self.rows,
            bytes: List::from_slice(alloc, self.bytes.as_slice())?,
        })
    }
}

impl Duplicate for PartAnswer {
    fn copy(&self, alloc: Global) -> Result<PartAnswer, Memory> {
        Ok(PartAnswer {
            number: self.number,
            columns: List::from_slice(alloc, self.columns.as_slice())?,
            best: self.best,
            tree: self.tree.copy(alloc)?,
        })
    }
}

impl Duplicate for Verdict {
    fn copy(&self, alloc: Global) -> Result<Verdict, Memory> {
        match self {
            Verdict::Optimal {
                objective,
                worlds,
                parts,
            } => Ok(Verdict::Optimal {
                objective: *objective,
                worlds: worlds.copy(alloc)?,
                parts: parts.copy(alloc)?,
            }),
            Verdict::FalseRow { row } => Ok(Verdict::FalseRow { row: *row }),
            Verdict::NoWorld { part } => Ok(Verdict::NoWorld {
                part: part.copy(alloc)?,
            }),
            Verdict::Unfinished { nodes, parts } => Ok(Verdict::Unfinished {
                nodes: *nodes,
                parts: parts.copy(alloc)?,
            }),
        }
    }
}

impl Duplicate for Answer {
    fn copy(&self, alloc: Global) -> Result<Answer, Memory> {
        Ok(Answer {
            columns: self.columns,
            rows: self.rows,
            formulas: self.formulas,
            verdict: self.verdict.copy(alloc)?,
        })
    }
}
