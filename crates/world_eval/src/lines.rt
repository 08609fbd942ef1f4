//! The lines of an evaluation.

ghost use Rattle.std.specs.Prelude.{◌≡◌, ◌++◌, IfOk, OnOk};
ghost use Rattle.world_eval.specs.Lines as spec;

use base_kit::{List, Memory, Name};
use std::alloc::Global;
use world_def::Broken;

/// The line that tells the first name that is not right.
#[tactic(auto, unfolding(crate::specs::Lines::possible_line))]
pub(crate) fn possible_line(alloc: Global, name: &[u8]) -> Result<List<u8>, Memory>
    ensures { IfOk result (λ line. line ≡ spec.possible_line name.now) }
{
    let mut line = Vec::new(alloc);
    put(&mut line, b"possible no ")?;
    put(&mut line, name)?;
    put(&mut line, b"\n")?;
    Ok(List::from_vec(line))
}

/// Appends the line of a view with so many rows, and then its table, which has these bytes.
#[tactic(auto, unfolding(crate::specs::Lines::view_bytes))]
pub(crate) fn put_view(
    alloc: Global,
    name: &Name,
    rows: usize,
    bytes: &[u8],
    text: &mut Vec<u8>,
) -> Result<(), Memory>
    ensures { OnOk result (text.new.items ≡ text.old.items ++ spec.view_bytes name.now rows bytes.now) }
{
    let name = name.as_str();
    let size = bytes.len();
    put(
        text,
        format!(in alloc; "view {name} {rows} {size}\n")?.as_bytes(),
    )?;
    put(text, bytes)
}

/// Appends whether a world meets what is required, and its score.
pub(crate) fn put_judged(
    alloc: Global,
    broken: Option<Broken>,
    score: i128,
    text: &mut Vec<u8>,
) -> Result<(), Memory>
    ensures { OnOk result (text.new.items ≡ text.old.items ++ spec.meets_line broken ++ spec.score_line score) }
{
    put_meets(alloc, broken, text)?;
    put_score(alloc, score, text)
}

/// Appends the line that tells whether a world meets what is required.
#[tactic(auto, unfolding(crate::specs::Lines::meets_line))]
fn put_meets(alloc: Global, broken: Option<Broken>, text: &mut Vec<u8>) -> Result<(), Memory>
    ensures { OnOk result (text.new.items ≡ text.old.items ++ spec.meets_line broken) }
{
    match broken {
        None => put(text, b"meets yes\n"),
        Some(broken) => put_broken(alloc, broken, text),
    }
}

/// Appends the line of a requirement that is broken.
#[tactic(auto, unfolding(crate::specs::Lines::broken_line))]
fn put_broken(alloc: Global, broken: Broken, text: &mut Vec<u8>) -> Result<(), Memory>
    ensures { OnOk result (text.new.items ≡ text.old.items ++ spec.broken_line broken) }
{
    let requirement = broken.requirement;
    let row = broken.row;
    put(
        text,
        format!(in alloc; "meets no {requirement} {row}\n")?.as_bytes(),
    )
}

/// Appends the line of a score.
#[tactic(auto, unfolding(crate::specs::Lines::score_line))]
fn put_score(alloc: Global, score: i128, text: &mut Vec<u8>) -> Result<(), Memory>
    ensures { OnOk result (text.new.items ≡ text.old.items ++ spec.score_line score) }
{
    put(text, format!(in alloc; "score {score}\n")?.as_bytes())
}

/// Appends the bytes.
fn put(text: &mut Vec<u8>, bytes: &[u8]) -> Result<(), Memory>
    ensures { OnOk result (text.new.items ≡ text.old.items ++ bytes.now) }
{
    Ok(text.extend_from_slice(bytes)?)
}
