//! The lines of an answer's text, each without its end.

ghost use Rattle.std.specs.Prelude.{◌≡◌, [], IfOk};
ghost use Rattle.std.specs.Option.{option_map};
ghost use Rattle.answer_text.specs.Lines as spec;

use crate::tokens::{cut, i64_of, i128_of, name_of, strip, u32_of};
use base_kit::{List, Memory, Name};
use branch_tree::{Leaf, Node, Reason};
use std::alloc::Global;

/// The line of a verdict.
#[derive(Clone, Copy, Debug)]
pub enum Head {
    Optimal { objective: i64 },
    Impossible,
    Unfinished { nodes: u32 },
}

/// The line of the program's numbers.
#[derive(Clone, Copy, Debug)]
pub struct Sizes {
    pub columns: u32,
    pub rows: u32,
    pub formulas: u32,
}

/// The line of a hypothetical table.
#[derive(Debug, Drop)]
pub struct WorldHead {
    pub name: Name,
    pub rows: u32,
    pub size: u32,
}

/// The line of a part's columns.
#[derive(Debug, Drop)]
pub struct PartHead {
    pub number: u32,
    pub columns: List<u32>,
}

/// Reads the line of a verdict.
#[tactic(auto, unfolding(crate::specs::Lines::head_of))]
pub fn head_of(text: &[u8]) -> Option<Head>
    ensures { result ≡ spec.head_of text.now }
{
    match strip(text, b"optimal ") {
        Some(objective) => Some(Head::Optimal {
            objective: i64_of(objective)?,
        }),
        None => other_head_of(text),
    }
}

#[tactic(auto, unfolding(crate::specs::Lines::other_head_of))]
fn other_head_of(text: &[u8]) -> Option<Head>
    ensures { result ≡ spec.other_head_of text.now }
{
    match strip(text, b"unfinished ") {
        Some(nodes) => Some(Head::Unfinished {
            nodes: u32_of(nodes)?,
        }),
        None => impossible_of(text),
    }
}

fn impossible_of(text: &[u8]) -> Option<Head>
    ensures { result ≡ spec.impossible_of text.now }
{
    if text == b"impossible".as_slice() {
        Some(Head::Impossible)
    } else {
        None
    }
}

/// Reads the line of the program's numbers.
#[tactic(auto, unfolding(crate::specs::Lines::sizes_of))]
pub fn sizes_of(text: &[u8]) -> Option<Sizes>
    ensures { result ≡ spec.sizes_of text.now }
{
    let (columns, rest) = cut(strip(text, b"program ")?, b' ')?;
    let columns = u32_of(columns)?;
    let (rows, formulas) = cut(rest, b' ')?;
    let rows = u32_of(rows)?;
    let formulas = u32_of(formulas)?;
    Some(Sizes {
        columns,
        rows,
        formulas,
    })
}

/// Reads the line of a false row.
#[tactic(auto, unfolding(crate::specs::Lines::row_of))]
pub fn row_of(text: &[u8]) -> Option<u32>
    ensures { result ≡ spec.row_of text.now }
{
    u32_of(strip(text, b"row ")?)
}

/// Reads the line of a hypothetical table.
#[tactic(auto, unfolding(crate::specs::Lines::world_head_of))]
pub fn world_head_of(alloc: Global, text: &[u8]) -> Result<Option<WorldHead>, Memory>
    ensures { IfOk result (λ head. head ≡ spec.world_head_of text.now) }
{
    let Some((name, rows, size)) = world_words(text) else {
        return Ok(None);
    };
    let Some(name) = name_of(alloc, name)? else {
        return Ok(None);
    };
    Ok(Some(WorldHead { name, rows, size }))
}

/// The words of that line: the bytes of the name, the number of rows, and the number of bytes.
#[tactic(auto, unfolding(crate::specs::Lines::world_words))]
fn world_words(text: &[u8]) -> Option<(&[u8], u32, u32)>
    ensures { option_map (λ x. (x.0.now, x.1, x.2)) result ≡ spec.world_words text.now }
{
    let (name, rest) = cut(strip(text, b"world ")?, b' ')?;
    let (rows, size) = cut(rest, b' ')?;
    let rows = u32_of(rows)?;
    let size = u32_of(size)?;
    Some((name, rows, size))
}

/// Reads the line of a part's columns.
#[tactic(auto, unfolding(crate::specs::Lines::part_head_of))]
pub fn part_head_of(alloc: Global, text: &[u8]) -> Result<Option<PartHead>, Memory>
    ensures { IfOk result (λ head. head ≡ spec.part_head_of text.now) }
{
    let Some((number, columns)) = part_words(text) else {
        return Ok(None);
    };
    let Some(columns) = columns_of(alloc, columns)? else {
        return Ok(None);
    };
    Ok(Some(PartHead { number, columns }))
}

/// The words of that line: the part's number, and the text of the columns.
#[tactic(auto, unfolding(crate::specs::Lines::part_words))]
fn part_words(text: &[u8]) -> Option<(u32, &[u8])>
    ensures { option_map (λ x. (x.0, x.1.now)) result ≡ spec.part_words text.now }
{
    let (number, rest) = cut(strip(text, b"part ")?, b' ')?;
    let number = u32_of(number)?;
    let columns = strip(rest, b"columns")?;
    Some((number, columns))
}

/// Reads the line of a best value.
#[tactic(auto, unfolding(crate::specs::Lines::best_of))]
pub fn best_of(text: &[u8]) -> Option<Option<i128>>
    ensures { result ≡ spec.best_of text.now }
{
    best_word(strip(text, b"best ")?)
}

#[tactic(auto, unfolding(crate::specs::Lines::best_word))]
fn best_word(word: &[u8]) -> Option<Option<i128>>
    ensures { result ≡ spec.best_word word.now }
{
    if word == b"none".as_slice() {
        Some(None)
    } else {
        Some(Some(i128_of(word)?))
    }
}

/// Reads the line of a node.
#[tactic(auto, unfolding(crate::specs::Lines::node_of))]
pub fn node_of(text: &[u8]) -> Option<Node>
    ensures { result ≡ spec.node_of text.now }
{
    match strip(text, b"split ") {
        Some(rest) => split_of(rest),
        None => Some(Node::Closed(leaf_of(text)?)),
    }
}

#[tactic(auto, unfolding(crate::specs::Lines::split_of))]
fn split_of(text: &[u8]) -> Option<Node>
    ensures { result ≡ spec.split_of text.now }
{
    let (column, rest) = cut(text, b' ')?;
    let column = u32_of(column)?;
    let (at, reason) = cut(rest, b' ')?;
    let at = i64_of(at)?;
    let reason = reason_of(reason)?;
    Some(Node::Split { column, at, reason })
}

fn reason_of(word: &[u8]) -> Option<Reason>
    ensures { result ≡ spec.reason_of word.now }
{
    if word == b"plain".as_slice() {
        Some(Reason::Plain)
    } else {
        None
    }
}

fn leaf_of(text: &[u8]) -> Option<Leaf>
    ensures { result ≡ spec.leaf_of text.now }
{
    if text == b"fixed".as_slice() {
        Some(Leaf::Fixed)
    } else if text == b"open".as_slice() {
        Some(Leaf::Pending)
    } else {
        None
    }
}

/// Reads the columns of a part, each behind a space and greater than the one before it.
fn columns_of(alloc: Global, text: &[u8]) -> Result<Option<List<u32>>, Memory>
    ensures { IfOk result (λ columns. columns ≡ spec.columns_of text.now) }
{
    if text.is_empty() {
        return Ok(Some(List::new(alloc)));
    }
    match strip(text, b" ") {
        Some(rest) => columns_from(alloc, rest),
        None => Ok(None),
    }
}

/// Reads the columns that stand between spaces.
fn columns_from(alloc: Global, text: &[u8]) -> Result<Option<List<u32>>, Memory>
    ensures { IfOk result (λ columns. columns ≡ spec.columns_from 0 [] text.now) }
{
    let mut columns = List::new(alloc);
    let mut least: u64 = 0;
    let mut rest = text;
    while let Some((word, after)) = cut(rest, b' ') {
        let Some(column) = column_of(word, least) else {
            return Ok(None);
        };
        columns.push(column)?;
        least = u64::from(column) + 1;
        rest = after;
    }
    let Some(column) = column_of(rest, least) else {
        return Ok(None);
    };
    columns.push(column)?;
    Ok(Some(columns))
}

/// The column that the word spells, at least so great.
#[tactic(auto, unfolding(crate::specs::Lines::column_of))]
fn column_of(word: &[u8], least: u64) -> Option<u32>
    ensures { result ≡ spec.column_of least word.now }
{
    let column = u32_of(word)?;
    if u64::from(column) < least {
        None
    } else {
        Some(column)
    }
}
