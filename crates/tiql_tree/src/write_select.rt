//! Writes views.
ghost use Rattle.std.specs.Prelude.{◌≡◌, ◌++◌, OnOk};
ghost use Rattle.tiql_tree.specs.Bytes as bytes;

use crate::condition::TreeCond;
use crate::expression::TreeRef;
use crate::tree::{TreeItem, TreeSelect, TreeSource, TreeValue, TreeView};
use crate::words::{put, put_name, put_ref};
use crate::write_condition::{CondRoom, put_cond};
use crate::write_expression::{Room, put_expr};
use base_kit::Memory;
use std::alloc::Global;

/// Appends WHERE and a condition, where there is one.
pub fn put_filter(alloc: Global, out: &mut Vec<u8>, filter: &Option<TreeCond>) -> Result<(), Memory>
    ensures { OnOk result (out.new.items ≡ out.old.items ++ bytes.filter_bytes filter.now) }
{
    match filter {
        None => Ok(()),
        Some(cond) => {
            put(out, b"WHERE ")?;
            put_cond(alloc, out, cond, CondRoom::Or)
        }
    }
}

/// Appends a view.
#[tactic(auto, unfolding(crate::specs::Bytes::view_bytes))]
pub fn put_view(alloc: Global, out: &mut Vec<u8>, view: &TreeView) -> Result<(), Memory>
    ensures { OnOk result (out.new.items ≡ out.old.items ++ bytes.view_bytes view.now) }
{
    put(out, b"VIEW ")?;
    put_name(out, view.name.name.as_str())?;
    put(out, b"AS ")?;
    put_arms(alloc, out, view.arms.as_slice())?;
    put(out, b";\n")
}

// Appends the selects of a view.
fn put_arms(alloc: Global, out: &mut Vec<u8>, arms: &[TreeSelect]) -> Result<(), Memory>
    ensures { OnOk result (out.new.items ≡ out.old.items ++ bytes.listed bytes.union_all bytes.select_bytes arms.now) }
{
    let [first, more @ ..] = arms else {
        return Ok(());
    };
    put_select(alloc, out, first)?;
    for select in more {
        put(out, b"UNION ALL ")?;
        put_select(alloc, out, select)?;
    }
    Ok(())
}

// Appends a select.
#[tactic(auto, unfolding(crate::specs::Bytes::select_bytes))]
fn put_select(alloc: Global, out: &mut Vec<u8>, select: &TreeSelect) -> Result<(), Memory>
    ensures { OnOk result (out.new.items ≡ out.old.items ++ bytes.select_bytes select.now) }
{
    put(out, b"SELECT ")?;
    put_distinct(out, select.distinct)?;
    put_items(alloc, out, select.items.as_slice())?;
    put(out, b"FROM ")?;
    put_sources(out, select.sources.as_slice())?;
    put_filter(alloc, out, &select.filter)?;
    put_group(out, select.group.as_slice())
}

fn put_distinct(out: &mut Vec<u8>, distinct: bool) -> Result<(), Memory>
    ensures { OnOk result (out.new.items ≡ out.old.items ++ bytes.distinct_bytes distinct) }
{
    if distinct {
        put(out, b"DISTINCT ")
    } else {
        Ok(())
    }
}

// Appends the items of a select.
fn put_items(alloc: Global, out: &mut Vec<u8>, items: &[TreeItem]) -> Result<(), Memory>
    ensures { OnOk result (out.new.items ≡ out.old.items ++ bytes.listed bytes.comma_space bytes.item_bytes items.now) }
{
    let [first, more @ ..] = items else {
        return Ok(());
    };
    put_item(alloc, out, first)?;
    for item in more {
        put(out, b", ")?;
        put_item(alloc, out, item)?;
    }
    Ok(())
}

// Appends an item, with its name.
#[tactic(auto, unfolding(crate::specs::Bytes::item_bytes))]
fn put_item(alloc: Global, out: &mut Vec<u8>, item: &TreeItem) -> Result<(), Memory>
    ensures { OnOk result (out.new.items ≡ out.old.items ++ bytes.item_bytes item.now) }
{
    put_value(alloc, out, &item.value)?;
    put(out, b"AS ")?;
    put_name(out, item.name.name.as_str())
}

// Appends what an item is made of.
#[tactic(auto, unfolding(crate::specs::Bytes::value_bytes))]
fn put_value(alloc: Global, out: &mut Vec<u8>, value: &TreeValue) -> Result<(), Memory>
    ensures { OnOk result (out.new.items ≡ out.old.items ++ bytes.value_bytes value.now) }
{
    match value {
        TreeValue::Plain(expr) => put_expr(alloc, out, expr, Room::Sum),
        TreeValue::Sum(expr) => {
            put(out, b"SUM ( ")?;
            put_expr(alloc, out, expr, Room::Sum)?;
            put(out, b") ")
        }
        TreeValue::Count => put(out, b"COUNT ( * ) "),
        TreeValue::Min(expr) => {
            put(out, b"MIN ( ")?;
            put_expr(alloc, out, expr, Room::Sum)?;
            put(out, b") ")
        }
        TreeValue::Max(expr) => {
            put(out, b"MAX ( ")?;
            put_expr(alloc, out, expr, Room::Sum)?;
            put(out, b") ")
        }
    }
}

// Appends the sources of a select.
fn put_sources(out: &mut Vec<u8>, sources: &[TreeSource]) -> Result<(), Memory>
    ensures { OnOk result (out.new.items ≡ out.old.items ++ bytes.listed bytes.comma_space bytes.source_bytes sources.now) }
{
    let [first, more @ ..] = sources else {
        return Ok(());
    };
    put_source(out, first)?;
    for source in more {
        put(out, b", ")?;
        put_source(out, source)?;
    }
    Ok(())
}

// Appends a source, with its alias.
#[tactic(auto, unfolding(crate::specs::Bytes::source_bytes))]
fn put_source(out: &mut Vec<u8>, source: &TreeSource) -> Result<(), Memory>
    ensures { OnOk result (out.new.items ≡ out.old.items ++ bytes.source_bytes source.now) }
{
    put_name(out, source.relation.name.as_str())?;
    put(out, b"AS ")?;
    put_name(out, source.alias.name.as_str())
}

// Appends GROUP BY and its columns, where there are any.
fn put_group(out: &mut Vec<u8>, refs: &[TreeRef]) -> Result<(), Memory>
    ensures { OnOk result (out.new.items ≡ out.old.items ++ bytes.group_bytes refs.now) }
{
    if refs.is_empty() {
        return Ok(());
    }
    put(out, b"GROUP BY ")?;
    put_refs(out, refs)
}

// Appends columns.
#[tactic(auto, unfolding(crate::specs::Bytes::ref_bytes))]
fn put_refs(out: &mut Vec<u8>, refs: &[TreeRef]) -> Result<(), Memory>
    ensures { OnOk result (out.new.items ≡ out.old.items ++ bytes.listed bytes.comma_space bytes.ref_bytes refs.now) }
{
    let [first, more @ ..] = refs else {
        return Ok(());
    };
    put_ref(out, first)?;
    for column in more {
        put(out, b", ")?;
        put_ref(out, column)?;
    }
    Ok(())
}
