//! Writes the text of a tree.
ghost use Rattle.std.specs.Prelude.{◌≡◌, ◌++◌, OnOk, IfOk};
ghost use Rattle.tiql_tree.specs.Bytes as bytes;
ghost use Rattle.tiql_tree.specs.Printed.{printed};
ghost use Rattle.tiql_tree.specs.Unplaced.{HasText, Spells};

use crate::condition::TreeCond;
use crate::tree::{
    Decl, Spot, Tree, TreeBound, TreeColumn, TreeGoal, TreeHypo, TreeRequire, TreeTable,
};
use crate::words::{put, put_name};
use crate::write_condition::{CondRoom, put_cond};
use crate::write_expression::{Room, put_expr};
use crate::write_select::{put_filter, put_view};
use base_kit::{List, Memory, Place};
use std::alloc::Global;

/// Prints a tree that some text spells, places aside; the printed text spells that tree (docs/LANGUAGE.md, "Printing"). Each
/// declaration and the goal is one line, with one space between two tokens, parentheses and square brackets only where they
/// are needed, and AS after every item and every source.
pub fn print_tree(alloc: Global, tree: &Tree) -> Result<List<u8>, Memory>
    requires { HasText tree.now }
    ensures layout { IfOk result (λ text. text ≡ printed tree.now) }
    ensures spells { IfOk result (λ text. Spells text tree.now) }
{
    tree_bytes(alloc, tree)
}

// Appends all declarations and the goal.
#[tactic(auto, unfolding(crate::specs::Bytes::tree_bytes))]
fn tree_bytes(alloc: Global, tree: &Tree) -> Result<List<u8>, Memory>
    ensures { IfOk result (λ text. text ≡ bytes.tree_bytes tree.now) }
{
    let mut out = Vec::new(alloc);
    for decl in tree.decls.as_slice() {
        put_decl(alloc, &mut out, decl)?;
    }
    put_goal(alloc, &mut out, &tree.goal)?;
    Ok(List::from_vec(out))
}

// Appends a declaration, which is one line.
#[tactic(auto, unfolding(crate::specs::Bytes::decl_bytes))]
fn put_decl(alloc: Global, out: &mut Vec<u8>, decl: &Decl) -> Result<(), Memory>
    ensures { OnOk result (out.new.items ≡ out.old.items ++ bytes.decl_bytes decl.now) }
{
    match decl {
        Decl::Table(table) => put_table(out, table),
        Decl::Hypo(hypo) => put_hypo(alloc, out, hypo),
        Decl::View(view) => put_view(alloc, out, view),
        Decl::Require(require) => put_require(alloc, out, require),
    }
}

// Appends a table.
#[tactic(auto, unfolding(crate::specs::Bytes::table_bytes))]
fn put_table(out: &mut Vec<u8>, table: &TreeTable) -> Result<(), Memory>
    ensures { OnOk result (out.new.items ≡ out.old.items ++ bytes.table_bytes table.now) }
{
    put(out, b"TABLE ")?;
    put_name(out, table.name.name.as_str())?;
    put(out, b"( ")?;
    put_columns(out, table.columns.as_slice())?;
    put(out, b") ")?;
    put_key(out, table.key.as_slice())?;
    put(out, b";\n")
}

// Appends the columns of a table.
fn put_columns(out: &mut Vec<u8>, columns: &[TreeColumn]) -> Result<(), Memory>
    ensures { OnOk result (out.new.items ≡ out.old.items ++ bytes.listed bytes.comma_space bytes.column_bytes columns.now) }
{
    let [first, more @ ..] = columns else {
        return Ok(());
    };
    put_column(out, first)?;
    for column in more {
        put(out, b", ")?;
        put_column(out, column)?;
    }
    Ok(())
}

#[tactic(auto, unfolding(crate::specs::Bytes::column_bytes))]
fn put_column(out: &mut Vec<u8>, column: &TreeColumn) -> Result<(), Memory>
    ensures { OnOk result (out.new.items ≡ out.old.items ++ bytes.column_bytes column.now) }
{
    put_name(out, column.name.name.as_str())?;
    if column.text {
        put(out, b"TEXT ")
    } else {
        put(out, b"INT ")
    }
}

// Appends KEY and its names, where there are any.
fn put_key(out: &mut Vec<u8>, names: &[Spot]) -> Result<(), Memory>
    ensures { OnOk result (out.new.items ≡ out.old.items ++ bytes.key_bytes names.now) }
{
    if names.is_empty() {
        return Ok(());
    }
    put(out, b"KEY ( ")?;
    put_names(out, names)?;
    put(out, b") ")
}

// Appends names.
fn put_names(out: &mut Vec<u8>, names: &[Spot]) -> Result<(), Memory>
    ensures { OnOk result (out.new.items ≡ out.old.items ++ bytes.listed bytes.comma_space bytes.spot_bytes names.now) }
{
    let [first, more @ ..] = names else {
        return Ok(());
    };
    put_name(out, first.name.as_str())?;
    for spot in more {
        put(out, b", ")?;
        put_name(out, spot.name.as_str())?;
    }
    Ok(())
}

// Appends a hypothetical table.
#[tactic(auto, unfolding(crate::specs::Bytes::hypo_bytes))]
fn put_hypo(alloc: Global, out: &mut Vec<u8>, hypo: &TreeHypo) -> Result<(), Memory>
    ensures { OnOk result (out.new.items ≡ out.old.items ++ bytes.hypo_bytes hypo.now) }
{
    put(out, b"HYPO ")?;
    put_name(out, hypo.name.name.as_str())?;
    put(out, b"FROM ")?;
    put_name(out, hypo.table.name.as_str())?;
    put_set(alloc, out, hypo.set.as_slice())?;
    put_filter(alloc, out, &hypo.filter)?;
    put_drop(out, hypo.dropped)?;
    put(out, b";\n")
}

fn put_drop(out: &mut Vec<u8>, dropped: Option<Place>) -> Result<(), Memory>
    ensures { OnOk result (out.new.items ≡ out.old.items ++ bytes.drop_bytes dropped) }
{
    match dropped {
        None => Ok(()),
        Some(_) => put(out, b"DROP "),
    }
}

// Appends SET and its bounds, where there are any.
fn put_set(alloc: Global, out: &mut Vec<u8>, bounds: &[TreeBound]) -> Result<(), Memory>
    ensures { OnOk result (out.new.items ≡ out.old.items ++ bytes.set_bytes bounds.now) }
{
    if bounds.is_empty() {
        return Ok(());
    }
    put(out, b"SET ")?;
    put_bounds(alloc, out, bounds)
}

// Appends bounds.
fn put_bounds(alloc: Global, out: &mut Vec<u8>, bounds: &[TreeBound]) -> Result<(), Memory>
    ensures { OnOk result (out.new.items ≡ out.old.items ++ bytes.listed bytes.comma_space bytes.bound_bytes bounds.now) }
{
    let [first, more @ ..] = bounds else {
        return Ok(());
    };
    put_bound(alloc, out, first)?;
    for bound in more {
        put(out, b", ")?;
        put_bound(alloc, out, bound)?;
    }
    Ok(())
}

// Appends the bounds of a column.
#[tactic(auto, unfolding(crate::specs::Bytes::bound_bytes))]
fn put_bound(alloc: Global, out: &mut Vec<u8>, bound: &TreeBound) -> Result<(), Memory>
    ensures { OnOk result (out.new.items ≡ out.old.items ++ bytes.bound_bytes bound.now) }
{
    put_name(out, bound.name.name.as_str())?;
    put(out, b"IN ")?;
    put_expr(alloc, out, &bound.lo, Room::Sum)?;
    put(out, b".. ")?;
    put_expr(alloc, out, &bound.hi, Room::Sum)
}

// Appends a requirement.
#[tactic(auto, unfolding(crate::specs::Bytes::require_bytes))]
fn put_require(alloc: Global, out: &mut Vec<u8>, require: &TreeRequire) -> Result<(), Memory>
    ensures { OnOk result (out.new.items ≡ out.old.items ++ bytes.require_bytes require.now) }
{
    match require {
        TreeRequire::All(name, cond) => {
            put(out, b"REQUIRE ALL ")?;
            put_have(alloc, out, name, cond)
        }
        TreeRequire::Some(name, cond) => {
            put(out, b"REQUIRE SOME ")?;
            put_have(alloc, out, name, cond)
        }
        TreeRequire::None(name) => {
            put(out, b"REQUIRE NONE ")?;
            put_name(out, name.name.as_str())?;
            put(out, b";\n")
        }
    }
}

// Appends the rest of a requirement with a condition.
fn put_have(alloc: Global, out: &mut Vec<u8>, name: &Spot, cond: &TreeCond) -> Result<(), Memory>
    ensures { OnOk result (out.new.items ≡ out.old.items ++ bytes.have_bytes name.now cond.now) }
{
    put_name(out, name.name.as_str())?;
    put(out, b"HAVE ")?;
    put_cond(alloc, out, cond, CondRoom::Or)?;
    put(out, b";\n")
}

// Appends a goal.
#[tactic(auto, unfolding(crate::specs::Bytes::goal_bytes))]
fn put_goal(alloc: Global, out: &mut Vec<u8>, goal: &TreeGoal) -> Result<(), Memory>
    ensures { OnOk result (out.new.items ≡ out.old.items ++ bytes.goal_bytes goal.now) }
{
    match goal {
        TreeGoal::Find => put(out, b"FIND ;\n"),
        TreeGoal::Sum {
            maximize,
            part,
            relation,
        } => {
            put(out, aim(*maximize))?;
            put_expr(alloc, out, part, Room::Sum)?;
            put(out, b") FROM ")?;
            put_name(out, relation.name.as_str())?;
            put(out, b";\n")
        }
    }
}

fn aim(maximize: bool) -> &'static [u8]
    ensures { result.now ≡ bytes.aim_bytes maximize }
{
    if maximize {
        b"MAXIMIZE SUM ( "
    } else {
        b"MINIMIZE SUM ( "
    }
}
