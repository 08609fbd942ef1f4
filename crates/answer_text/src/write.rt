//! The text of an answer, from the answer.

ghost use Rattle.std.specs.Prelude.{◌≡◌, ◌∷◌, ◌++◌, IfOk, OnOk, decimal, flat_map, string_bytes};
ghost use Rattle.std.specs.Fmt.{signed_decimal};
ghost use Rattle.answer_text.specs.Text as spec;

use crate::{Answer, PartAnswer, Verdict, WorldText};
use base_kit::{List, Memory};
use branch_tree::{Leaf, Node, Reason};
use std::alloc::Global;

/// The one text of an answer.
///
/// It is an answer's text by docs/ANSWERS.md where the columns of each part rise, no best is -2^127, and each world has
/// fewer than 2^32 bytes.
#[tactic(auto, unfolding(crate::specs::Text::answer_bytes))]
pub fn write_answer(alloc: Global, answer: &Answer) -> Result<List<u8>, Memory>
    ensures { IfOk result (λ bytes. bytes ≡ spec.answer_bytes answer.now) }
{
    let mut out = Vec::new(alloc);
    put(&mut out, b"tiresias answer 1\n")?;
    put_verdict(alloc, &mut out, &answer.verdict)?;
    put_program(alloc, &mut out, answer)?;
    put_found(alloc, &mut out, &answer.verdict)?;
    put(&mut out, b"end\n")?;
    Ok(List::from_vec(out))
}

/// Appends the bytes.
fn put(out: &mut Vec<u8>, bytes: &[u8]) -> Result<(), Memory>
    ensures { OnOk result (out.new.items ≡ out.old.items ++ bytes.now) }
{
    Ok(out.extend_from_slice(bytes)?)
}

/// Appends the line of the verdict.
#[tactic(auto, unfolding(crate::specs::Text::verdict_line))]
fn put_verdict(alloc: Global, out: &mut Vec<u8>, verdict: &Verdict) -> Result<(), Memory>
    ensures { OnOk result (out.new.items ≡ out.old.items ++ spec.verdict_line verdict.now) }
{
    match verdict {
        Verdict::Optimal { objective, .. } => put(
            out,
            format!(in alloc; "optimal {objective}\n")?.as_bytes(),
        ),
        Verdict::FalseRow { .. } => put(out, b"impossible\n"),
        Verdict::NoWorld { .. } => put(out, b"impossible\n"),
        Verdict::Unfinished { nodes, .. } => put(
            out,
            format!(in alloc; "unfinished {nodes}\n")?.as_bytes(),
        ),
    }
}

/// Appends what the verdict carries: worlds, parts, or the number of a row.
#[tactic(auto, unfolding(crate::specs::Text::found_bytes))]
fn put_found(alloc: Global, out: &mut Vec<u8>, verdict: &Verdict) -> Result<(), Memory>
    ensures { OnOk result (out.new.items ≡ out.old.items ++ spec.found_bytes verdict.now) }
{
    match verdict {
        Verdict::Optimal { worlds, parts, .. } => {
            put_worlds(alloc, out, worlds.as_slice())?;
            put_parts(alloc, out, parts.as_slice())
        }
        Verdict::FalseRow { row } => put(out, format!(in alloc; "row {row}\n")?.as_bytes()),
        Verdict::NoWorld { part } => put_part(alloc, out, part),
        Verdict::Unfinished { parts, .. } => put_parts(alloc, out, parts.as_slice()),
    }
}

/// Appends the line of the program's numbers.
#[tactic(auto, unfolding(crate::specs::Text::program_line))]
fn put_program(alloc: Global, out: &mut Vec<u8>, answer: &Answer) -> Result<(), Memory>
    ensures { OnOk result (out.new.items ≡ out.old.items ++ spec.program_line answer.now) }
{
    let Answer {
        columns,
        rows,
        formulas,
        verdict: _,
    } = answer;
    put(
        out,
        format!(in alloc; "program {columns} {rows} {formulas}\n")?.as_bytes(),
    )
}

/// Appends the sections of the worlds.
fn put_worlds(alloc: Global, out: &mut Vec<u8>, worlds: &[WorldText]) -> Result<(), Memory>
    ensures { OnOk result (out.new.items ≡ out.old.items ++ flat_map spec.world_bytes worlds.now) }
{
    for world in worlds {
        put_world(alloc, out, world)?;
    }
    Ok(())
}

/// Appends the section of one hypothetical table.
#[tactic(auto, unfolding(crate::specs::Text::world_bytes))]
fn put_world(alloc: Global, out: &mut Vec<u8>, world: &WorldText) -> Result<(), Memory>
    ensures { OnOk result (out.new.items ≡ out.old.items ++ spec.world_bytes world.now) }
{
    let name = world.name.as_str();
    let rows = world.rows;
    let size = world.bytes.len();
    put(
        out,
        format!(in alloc; "world {name} {rows} {size}\n")?.as_bytes(),
    )?;
    put(out, world.bytes.as_slice())
}

/// Appends the parts.
fn put_parts(alloc: Global, out: &mut Vec<u8>, parts: &[PartAnswer]) -> Result<(), Memory>
    ensures { OnOk result (out.new.items ≡ out.old.items ++ flat_map spec.part_bytes parts.now) }
{
    for part in parts {
        put_part(alloc, out, part)?;
    }
    Ok(())
}

/// Appends one part: its columns, its best value and its tree.
#[tactic(auto, unfolding(crate::specs::Text::part_bytes))]
fn put_part(alloc: Global, out: &mut Vec<u8>, part: &PartAnswer) -> Result<(), Memory>
    ensures { OnOk result (out.new.items ≡ out.old.items ++ spec.part_bytes part.now) }
{
    let number = part.number;
    put(out, format!(in alloc; "part {number} columns")?.as_bytes())?;
    put_columns(alloc, out, part.columns.as_slice())?;
    put_best(alloc, out, part.best)?;
    put_nodes(alloc, out, part.tree.nodes().as_slice())
}

/// Appends the numbers of the columns, each behind a space.
fn put_columns(alloc: Global, out: &mut Vec<u8>, columns: &[u32]) -> Result<(), Memory>
    ensures { OnOk result (out.new.items ≡ out.old.items ++ flat_map spec.column_word columns.now) }
{
    for column in columns {
        put_column(alloc, out, *column)?;
    }
    Ok(())
}

/// Appends a space and the number of a column.
fn put_column(alloc: Global, out: &mut Vec<u8>, column: u32) -> Result<(), Memory>
    ensures { OnOk result (out.new.items ≡ out.old.items ++ spec.column_word column) }
{
    put(out, format!(in alloc; " {column}")?.as_bytes())
}

/// Ends the line of the columns, and appends that of the best value.
#[tactic(auto, unfolding(crate::specs::Text::best_line))]
fn put_best(alloc: Global, out: &mut Vec<u8>, best: Option<i128>) -> Result<(), Memory>
    ensures { OnOk result (out.new.items ≡ out.old.items ++ 10 ∷ spec.best_line best) }
{
    match best {
        Some(best) => put(out, format!(in alloc; "\nbest {best}\n")?.as_bytes()),
        None => put(out, b"\nbest none\n"),
    }
}

/// Appends the lines of a tree's nodes.
fn put_nodes(alloc: Global, out: &mut Vec<u8>, nodes: &[Node]) -> Result<(), Memory>
    ensures { OnOk result (out.new.items ≡ out.old.items ++ flat_map spec.node_line nodes.now) }
{
    for node in nodes {
        put_node(alloc, out, node)?;
    }
    Ok(())
}

/// Appends the line of one node.
#[tactic(auto, unfolding(crate::specs::Text::node_line))]
fn put_node(alloc: Global, out: &mut Vec<u8>, node: &Node) -> Result<(), Memory>
    ensures { OnOk result (out.new.items ≡ out.old.items ++ spec.node_line node.now) }
{
    match node {
        Node::Split { column, at, reason } => put_split(alloc, out, *column, *at, *reason),
        Node::Closed(leaf) => put(out, leaf_line(leaf)),
    }
}

/// Appends the line of a split.
#[tactic(auto, unfolding(crate::specs::Text::split_line))]
fn put_split(
    alloc: Global,
    out: &mut Vec<u8>,
    column: u32,
    at: i64,
    reason: Reason,
) -> Result<(), Memory>
    ensures { OnOk result (out.new.items ≡ out.old.items ++ spec.split_line column at reason) }
{
    let reason = reason_word(reason);
    put(
        out,
        format!(in alloc; "split {column} {at} {reason}\n")?.as_bytes(),
    )
}

/// The word of a split's reason.
fn reason_word(reason: Reason) -> &'static str
    ensures { result.now ≡ spec.reason_word reason }
{
    match reason {
        Reason::Plain => "plain",
    }
}

/// The line of a leaf.
fn leaf_line(leaf: &Leaf) -> &'static [u8]
    ensures { result.now ≡ spec.leaf_line leaf.now }
{
    match leaf {
        Leaf::Fixed => b"fixed\n",
        Leaf::Pending => b"open\n",
    }
}
