//! An answer's text, line by line and section by section.

ghost use Rattle.std.specs.Prelude.{◌≡◌, ◌+◌, ◌-◌, ◌<◌, ◌^◌, length};
ghost use Rattle.answer_text.specs.Blocks as spec;

use crate::lines::{
    Head, PartHead, Sizes, WorldHead, best_of, head_of, node_of, part_head_of, row_of, sizes_of,
    world_head_of,
};
use crate::tokens::{cut, strip};
use crate::{Answer, PartAnswer, Verdict, WorldText};
use base_kit::{List, Memory};
use branch_tree::{Branches, Node};
use std::alloc::{AllocError, Global};

/// Why reading an answer stopped.
#[derive(Clone, Copy, Debug)]
pub enum Stop {
    /// No answer has such a line: so many bytes are left from its begin on.
    Bad { left: usize },
    /// Memory ran out.
    Memory,
}

impl From<Memory> for Stop {
    ghost use Rattle.std.specs.Prelude.{◌≡◌};
    ghost use Rattle.answer_text.specs.declared.blocks.Stop.{Stop};
    ghost use Rattle.answer_text.specs.declared.blocks.Stop.TheVariants as stop;

    ghost from_gives = { λ _ e. e ≡ stop.Memory };

    fn from(_fault: Memory) -> Stop {
        Stop::Memory
    }
}

impl From<AllocError> for Stop {
    ghost use Rattle.std.specs.Prelude.{◌≡◌};
    ghost use Rattle.answer_text.specs.declared.blocks.Stop.{Stop};
    ghost use Rattle.answer_text.specs.declared.blocks.Stop.TheVariants as stop;

    ghost from_gives = { λ _ e. e ≡ stop.Memory };

    fn from(_fault: AllocError) -> Stop {
        Stop::Memory
    }
}

/// The whole of the bytes as an answer.
#[tactic(auto, unfolding(crate::specs::Blocks::whole_at))]
pub fn whole(alloc: Global, bytes: &[u8]) -> Result<Answer, Stop>
    requires { length bytes.now < 2 ^ 32 }
    ensures { spec.ReadsAs (λ x. x) result (spec.whole_at bytes.now) }
{
    let (answer, rest) = answer(alloc, bytes)?;
    if !rest.is_empty() {
        return Err(bad(rest));
    }
    Ok(answer)
}

#[tactic(auto, unfolding(crate::specs::Blocks::answer_at))]
fn answer(alloc: Global, bytes: &[u8]) -> Result<(Answer, &[u8]), Stop>
    requires { length bytes.now < 2 ^ 32 }
    ensures { spec.ReadsAs (λ x. (x.0, x.1.now)) result (spec.answer_at bytes.now) }
{
    let rest = word_line(bytes, b"tiresias answer 1")?;
    let (head, rest) = head(rest)?;
    let (sizes, rest) = sizes(rest)?;
    let (verdict, rest) = found(alloc, head, rest)?;
    let Sizes {
        columns,
        rows,
        formulas,
    } = sizes;
    Ok((
        Answer {
            columns,
            rows,
            formulas,
            verdict,
        },
        rest,
    ))
}

/// What stands behind the line of a verdict and that of the program, up to the last line.
#[tactic(auto, unfolding(crate::specs::Blocks::found_at))]
fn found(alloc: Global, head: Head, bytes: &[u8]) -> Result<(Verdict, &[u8]), Stop>
    requires { length bytes.now < 2 ^ 32 }
    ensures { spec.ReadsAs (λ x. (x.0, x.1.now)) result (spec.found_at head bytes.now) }
{
    match head {
        Head::Optimal { objective } => optimal(alloc, objective, bytes),
        Head::Impossible => impossible(alloc, bytes),
        Head::Unfinished { nodes } => unfinished(alloc, nodes, bytes),
    }
}

#[tactic(auto, unfolding(crate::specs::Blocks::optimal_at))]
fn optimal(alloc: Global, objective: i64, bytes: &[u8]) -> Result<(Verdict, &[u8]), Stop>
    requires { length bytes.now < 2 ^ 32 }
    ensures { spec.ReadsAs (λ x. (x.0, x.1.now)) result (spec.optimal_at objective bytes.now) }
{
    let (worlds, rest) = worlds(alloc, bytes)?;
    let (parts, rest) = parts(alloc, rest)?;
    let rest = word_line(rest, b"end")?;
    Ok((
        Verdict::Optimal {
            objective,
            worlds,
            parts,
        },
        rest,
    ))
}

#[tactic(auto, unfolding(crate::specs::Blocks::unfinished_at))]
fn unfinished(alloc: Global, nodes: u32, bytes: &[u8]) -> Result<(Verdict, &[u8]), Stop>
    requires { length bytes.now < 2 ^ 32 }
    ensures { spec.ReadsAs (λ x. (x.0, x.1.now)) result (spec.unfinished_at nodes bytes.now) }
{
    let (parts, rest) = parts(alloc, bytes)?;
    let rest = word_line(rest, b"end")?;
    Ok((Verdict::Unfinished { nodes, parts }, rest))
}

#[tactic(auto, unfolding(crate::specs::Blocks::impossible_at))]
fn impossible(alloc: Global, bytes: &[u8]) -> Result<(Verdict, &[u8]), Stop>
    requires { length bytes.now < 2 ^ 32 }
    ensures { spec.ReadsAs (λ x. (x.0, x.1.now)) result (spec.impossible_at bytes.now) }
{
    if begins(bytes, b"row ") {
        false_row(bytes)
    } else {
        no_world(alloc, bytes)
    }
}

#[tactic(auto, unfolding(crate::specs::Blocks::false_row_at))]
fn false_row(bytes: &[u8]) -> Result<(Verdict, &[u8]), Stop>
    ensures { spec.ReadsAs (λ x. (x.0, x.1.now)) result (spec.false_row_at bytes.now) }
{
    let (row, rest) = row(bytes)?;
    let rest = word_line(rest, b"end")?;
    Ok((Verdict::FalseRow { row }, rest))
}

#[tactic(auto, unfolding(crate::specs::Blocks::no_world_at))]
fn no_world(alloc: Global, bytes: &[u8]) -> Result<(Verdict, &[u8]), Stop>
    requires { length bytes.now < 2 ^ 32 }
    ensures { spec.ReadsAs (λ x. (x.0, x.1.now)) result (spec.no_world_at bytes.now) }
{
    let (part, rest) = part(alloc, bytes)?;
    let rest = word_line(rest, b"end")?;
    Ok((Verdict::NoWorld { part }, rest))
}

/// The sections of worlds that the bytes begin with.
fn worlds(alloc: Global, bytes: &[u8]) -> Result<(List<WorldText>, &[u8]), Stop>
    ensures { spec.ReadsAs (λ x. (x.0, x.1.now)) result (spec.worlds_at bytes.now) }
{
    let mut worlds = List::new(alloc);
    let mut rest = bytes;
    'each: while begins(rest, b"world ") {
        let (world, after) = world(alloc, rest)?;
        worlds.push(world)?;
        rest = after;
    }
    Ok((worlds, rest))
}

/// The section of a hypothetical table.
#[tactic(auto, unfolding(crate::specs::Blocks::world_at))]
fn world(alloc: Global, bytes: &[u8]) -> Result<(WorldText, &[u8]), Stop>
    ensures { spec.ReadsAs (λ x. (x.0, x.1.now)) result (spec.world_at bytes.now) }
{
    let (head, rest) = world_head(alloc, bytes)?;
    let WorldHead { name, rows, size } = head;
    let (section, rest) = section(rest, size)?;
    let bytes = List::from_slice(alloc, section)?;
    Ok((WorldText { name, rows, bytes }, rest))
}

/// So many bytes, or a stop at the end where there are fewer.
fn section(bytes: &[u8], size: u32) -> Result<(&[u8], &[u8]), Stop>
    ensures { spec.ReadsAs (λ x. (x.0.now, x.1.now)) result (spec.section_at size bytes.now) }
{
    let size = size as usize;
    if bytes.len() < size {
        return Err(Stop::Bad { left: 0 });
    }
    Ok(bytes.split_at(size))
}

/// The parts that the bytes begin with.
fn parts(alloc: Global, bytes: &[u8]) -> Result<(List<PartAnswer>, &[u8]), Stop>
    requires { length bytes.now < 2 ^ 32 }
    ensures { spec.ReadsAs (λ x. (x.0, x.1.now)) result (spec.parts_at bytes.now) }
{
    let mut parts = List::new(alloc);
    let mut rest = bytes;
    'each: while begins(rest, b"part ") {
        let (part, after) = part(alloc, rest)?;
        parts.push(part)?;
        rest = after;
    }
    Ok((parts, rest))
}

/// A part: its columns, its best value and its tree.
#[tactic(auto, unfolding(crate::specs::Blocks::part_at))]
fn part(alloc: Global, bytes: &[u8]) -> Result<(PartAnswer, &[u8]), Stop>
    requires { length bytes.now < 2 ^ 32 }
    ensures { spec.ReadsAs (λ x. (x.0, x.1.now)) result (spec.part_at bytes.now) }
{
    let (head, rest) = part_head(alloc, bytes)?;
    let (best, rest) = best(rest)?;
    let (tree, rest) = tree(alloc, rest)?;
    let PartHead { number, columns } = head;
    Ok((
        PartAnswer {
            number,
            columns,
            best,
            tree,
        },
        rest,
    ))
}

/// One whole tree.
fn tree(alloc: Global, bytes: &[u8]) -> Result<(Branches, &[u8]), Stop>
    requires { length bytes.now < 2 ^ 32 }
    ensures { spec.ReadsAs (λ x. (x.0, x.1.now)) result (spec.nodes_at bytes.now) }
{
    let (nodes, rest) = nodes(alloc, bytes)?;
    match Branches::from_nodes(nodes) {
        Some(tree) => Ok((tree, rest)),
        None => unreachable!(),
    }
}

/// The nodes of one whole tree in preorder, by counting the trees that are still wanted.
fn nodes(alloc: Global, bytes: &[u8]) -> Result<(List<Node>, &[u8]), Stop>
    requires { length bytes.now < 2 ^ 32 }
    ensures { spec.ReadsAs (λ x. (x.0, x.1.now)) result (spec.nodes_at bytes.now) }
{
    let mut nodes = List::new(alloc);
    let mut wanted: usize = 1;
    let mut rest = bytes;
    'each: while wanted > 0 {
        let (node, after) = node(rest)?;
        wanted = wanted_behind(&node, wanted);
        nodes.push(node)?;
        rest = after;
    }
    Ok((nodes, rest))
}

/// How many trees are wanted behind a node, where so many were wanted before it.
fn wanted_behind(node: &Node, wanted: usize) -> usize
    requires some { 0 < wanted }
    requires room { wanted + 1 < 2 ^ 64 }
    ensures { result ≡ spec.wanted_behind node.now (wanted - 1) }
{
    match node {
        Node::Split { .. } => wanted + 1,
        Node::Closed(_) => wanted - 1,
    }
}

fn head(bytes: &[u8]) -> Result<(Head, &[u8]), Stop>
    ensures { spec.ReadsAs (λ x. (x.0, x.1.now)) result (spec.read_line spec.head_of bytes.now) }
{
    let (text, rest) = line_at(bytes)?;
    let head = head_of(text).ok_or(bad(bytes))?;
    Ok((head, rest))
}

fn sizes(bytes: &[u8]) -> Result<(Sizes, &[u8]), Stop>
    ensures { spec.ReadsAs (λ x. (x.0, x.1.now)) result (spec.read_line spec.sizes_of bytes.now) }
{
    let (text, rest) = line_at(bytes)?;
    let sizes = sizes_of(text).ok_or(bad(bytes))?;
    Ok((sizes, rest))
}

fn row(bytes: &[u8]) -> Result<(u32, &[u8]), Stop>
    ensures { spec.ReadsAs (λ x. (x.0, x.1.now)) result (spec.read_line spec.row_of bytes.now) }
{
    let (text, rest) = line_at(bytes)?;
    let row = row_of(text).ok_or(bad(bytes))?;
    Ok((row, rest))
}

fn best(bytes: &[u8]) -> Result<(Option<i128>, &[u8]), Stop>
    ensures { spec.ReadsAs (λ x. (x.0, x.1.now)) result (spec.read_line spec.best_of bytes.now) }
{
    let (text, rest) = line_at(bytes)?;
    let best = best_of(text).ok_or(bad(bytes))?;
    Ok((best, rest))
}

fn node(bytes: &[u8]) -> Result<(Node, &[u8]), Stop>
    ensures { spec.ReadsAs (λ x. (x.0, x.1.now)) result (spec.read_line spec.node_of bytes.now) }
{
    let (text, rest) = line_at(bytes)?;
    let node = node_of(text).ok_or(bad(bytes))?;
    Ok((node, rest))
}

fn world_head(alloc: Global, bytes: &[u8]) -> Result<(WorldHead, &[u8]), Stop>
    ensures { spec.ReadsAs (λ x. (x.0, x.1.now)) result (spec.read_line spec.world_head_of bytes.now) }
{
    let (text, rest) = line_at(bytes)?;
    let head = world_head_of(alloc, text)?.ok_or(bad(bytes))?;
    Ok((head, rest))
}

fn part_head(alloc: Global, bytes: &[u8]) -> Result<(PartHead, &[u8]), Stop>
    ensures { spec.ReadsAs (λ x. (x.0, x.1.now)) result (spec.read_line spec.part_head_of bytes.now) }
{
    let (text, rest) = line_at(bytes)?;
    let head = part_head_of(alloc, text)?.ok_or(bad(bytes))?;
    Ok((head, rest))
}

/// What follows a line that is this word.
fn word_line<'a>(bytes: &'a [u8], word: &[u8]) -> Result<&'a [u8], Stop>
    ensures { spec.ReadsAs (λ rest. (tt, rest.now)) result (spec.read_line (spec.is_word word.now) bytes.now) }
{
    let (text, rest) = line_at(bytes)?;
    if text == word {
        Ok(rest)
    } else {
        Err(bad(bytes))
    }
}

/// The line at the head of the bytes, without its end, and what follows it.
fn line_at(bytes: &[u8]) -> Result<(&[u8], &[u8]), Stop>
    ensures { spec.ReadsAs (λ x. (x.0.now, x.1.now)) result (spec.line_at bytes.now) }
{
    cut(bytes, b'\n').ok_or(bad(bytes))
}

/// Tells whether the bytes begin with this word.
fn begins(bytes: &[u8], word: &[u8]) -> bool
    ensures { result ≡ spec.begins word.now bytes.now }
{
    strip(bytes, word).is_some()
}

/// A stop at the head of these bytes.
fn bad(bytes: &[u8]) -> Stop
    ensures { result ≡ Stop.Bad (length bytes.now) }
{
    Stop::Bad { left: bytes.len() }
}
