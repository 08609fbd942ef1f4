//! The lines of the formulas.
ghost use Rattle.std.specs.Prelude.{◌≡◌, ◌++◌, OnOk, flat_map};
ghost use Rattle.prov_arena.specs.Formulas.{formula};
ghost use Rattle.program_text.specs.Text as spec;

use crate::put::{put, put_count, put_heading, put_number, put_place, put_product};
use base_kit::Memory;
use prov_fold::{Pair, Part, Prov, Term};

/// Appends how many formulas there are, and a line for each.
#[tactic(auto, unfolding(crate::specs::Text::nodes_bytes))]
pub(crate) fn put_nodes(out: &mut Vec<u8>, prov: &Prov<'_>) -> Result<(), Memory>
    ensures { OnOk result (out.new.items ≡ out.old.items ++ spec.nodes_bytes prov.now) }
{
    put_heading(out, b"nodes", prov.len() as usize)?;
    put_all(out, prov)
}

/// Appends a line for each formula.
fn put_all(out: &mut Vec<u8>, prov: &Prov<'_>) -> Result<(), Memory>
    ensures { OnOk result (out.new.items ≡ out.old.items ++ spec.numbered spec.node_line 0 prov.now) }
{
    for id in 0..prov.len() {
        put_node(out, id, prov.node(id))?;
    }
    Ok(())
}

/// Appends the line of a formula.
#[tactic(auto, unfolding(crate::specs::Text::node_line))]
fn put_node(out: &mut Vec<u8>, id: u32, part: Part<'_>) -> Result<(), Memory>
    ensures { OnOk result (out.new.items ≡ out.old.items ++ spec.node_line id (formula part.entry)) }
{
    put_count(out, u64::from(id))?;
    put_part(out, part)?;
    put(out, b"\n")
}

/// Appends what a formula says.
#[tactic(auto, unfolding(crate::specs::Text::formula_words))]
fn put_part(out: &mut Vec<u8>, part: Part<'_>) -> Result<(), Memory>
    ensures { OnOk result (out.new.items ≡ out.old.items ++ spec.formula_words (formula part.entry)) }
{
    match part {
        Part::False => put(out, b" false"),
        Part::True => put(out, b" true"),
        Part::Pres(column) => put_one(out, b" pres", column),
        Part::Cell(column) => put_one(out, b" cell", column),
        Part::Pos(number) => put_one(out, b" pos", number),
        Part::Not(truth) => put_one(out, b" not", truth),
        Part::And(kids) => put_kids(out, b" and", kids),
        Part::Or(kids) => put_kids(out, b" or", kids),
        Part::Lin(constant, terms) => put_sum(out, constant, terms),
        Part::Guard(truth, number) => put_guard(out, truth, number),
        Part::Abs(number) => put_one(out, b" abs", number),
        Part::Tot(number) => put_one(out, b" tot", number),
        Part::Min(pairs) => put_least(out, pairs),
    }
}

/// Appends a word and a place.
fn put_one(out: &mut Vec<u8>, word: &[u8], place: u32) -> Result<(), Memory>
    ensures { OnOk result (out.new.items ≡ out.old.items ++ word.now ++ spec.place place) }
{
    put(out, word)?;
    put_place(out, place)
}

/// Appends a word and places.
fn put_kids(out: &mut Vec<u8>, word: &[u8], kids: &[u32]) -> Result<(), Memory>
    ensures { OnOk result (out.new.items ≡ out.old.items ++ word.now ++ flat_map spec.place kids.now) }
{
    put(out, word)?;
    put_places(out, kids)
}

fn put_places(out: &mut Vec<u8>, places: &[u32]) -> Result<(), Memory>
    ensures { OnOk result (out.new.items ≡ out.old.items ++ flat_map spec.place places.now) }
{
    for place in places {
        put_place(out, *place)?;
    }
    Ok(())
}

/// Appends a constant and terms.
fn put_sum(out: &mut Vec<u8>, constant: i64, terms: &[Term]) -> Result<(), Memory>
    ensures { OnOk result (out.new.items ≡ out.old.items ++ spec.sum_words constant terms.now) }
{
    put(out, b" lin ")?;
    put_number(out, constant)?;
    put_terms(out, terms)
}

fn put_terms(out: &mut Vec<u8>, terms: &[Term]) -> Result<(), Memory>
    ensures { OnOk result (out.new.items ≡ out.old.items ++ flat_map spec.term_word terms.now) }
{
    for term in terms {
        put_product(out, term.factor, term.node)?;
    }
    Ok(())
}

/// Appends the truth and the number of a Guard.
fn put_guard(out: &mut Vec<u8>, truth: u32, number: u32) -> Result<(), Memory>
    ensures { OnOk result (out.new.items ≡ out.old.items ++ spec.guard_words truth number) }
{
    put_one(out, b" guard", truth)?;
    put_place(out, number)
}

/// Appends the pairs of a Min.
fn put_least(out: &mut Vec<u8>, pairs: &[Pair]) -> Result<(), Memory>
    ensures { OnOk result (out.new.items ≡ out.old.items ++ spec.least_words pairs.now) }
{
    put(out, b" min")?;
    put_pairs(out, pairs)
}

fn put_pairs(out: &mut Vec<u8>, pairs: &[Pair]) -> Result<(), Memory>
    ensures { OnOk result (out.new.items ≡ out.old.items ++ flat_map spec.pair_word pairs.now) }
{
    for pair in pairs {
        put_pair(out, *pair)?;
    }
    Ok(())
}

#[tactic(auto, unfolding(crate::specs::Text::pair_word))]
fn put_pair(out: &mut Vec<u8>, pair: Pair) -> Result<(), Memory>
    ensures { OnOk result (out.new.items ≡ out.old.items ++ spec.pair_word pair) }
{
    put_place(out, pair.truth)?;
    put(out, b":")?;
    put_count(out, u64::from(pair.number))
}
