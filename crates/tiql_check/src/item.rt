//! Items of a select.
ghost use Rattle.std.specs.Prelude.{◌≡◌};
ghost use Rattle.tiql_check.specs.Scopes.{scope_of};
ghost use Rattle.tiql_check.specs.Selects as spec;
ghost use Rattle.tiql_check.specs.Turns.{ChecksTo, ChecksInto, in_turn};

use crate::SoundFault;
use crate::expression::{check_expression, check_number};
use crate::scope::{InScope, Kind};
use base_kit::{Duplicate, List, Name, Place};
use std::alloc::Global;
use tiql_query::{At, Expr, Item};
use tiql_tree::{TreeItem, TreeValue};

/// An item, with what stands in its column.
#[derive(Debug, Drop)]
pub struct TypedItem {
    /// The item.
    pub item: Item,
    /// What stands in its column.
    pub kind: Kind,
}

/// The column that an item makes.
#[derive(Debug, Drop)]
pub struct ItemColumn {
    /// The name of the item.
    pub name: Name,
    /// The place of the item.
    pub place: Place,
    /// What stands in the column.
    pub kind: Kind,
}

/// The first items of a select.
#[derive(Debug, Drop)]
pub struct Items {
    /// These items.
    pub items: List<Item>,
    /// The columns that they make.
    pub columns: List<ItemColumn>,
}

/// Which rules the items of a select are under.
#[derive(Clone, Copy, Debug, PartialEq, Eq)]
pub struct Rules {
    /// Whether they name the columns of the view.
    pub named: bool,
    /// Whether DISTINCT is written.
    pub distinct: bool,
    /// Whether the rows are grouped.
    pub grouped: bool,
}

// What an item is made of. An aggregate is of a whole number, and is unknown.
#[tactic(auto, unfolding(crate::specs::Selects::value_in))]
fn check_value(
    alloc: Global,
    scope: &[InScope<'_>],
    tree: &TreeValue,
) -> Result<TypedItem, SoundFault>
    ensures { ChecksTo (spec.value_in (scope_of scope.now) tree.now) result }
{
    match tree {
        TreeValue::Plain(expr) => {
            let one = check_expression(alloc, scope, expr)?;
            Ok(TypedItem {
                item: Item::Plain(one.expr),
                kind: one.kind,
            })
        }
        TreeValue::Sum(expr) => {
            let one = check_number(alloc, scope, expr)?;
            Ok(aggregate(Item::Sum(one.expr)))
        }
        TreeValue::Count => Ok(aggregate(Item::Count)),
        TreeValue::Min(expr) => {
            let one = check_number(alloc, scope, expr)?;
            Ok(aggregate(Item::Min(one.expr)))
        }
        TreeValue::Max(expr) => {
            let one = check_number(alloc, scope, expr)?;
            Ok(aggregate(Item::Max(one.expr)))
        }
    }
}

fn aggregate(item: Item) -> TypedItem
    ensures { result ≡ spec.aggregate item }
{
    TypedItem {
        item,
        kind: Kind::number(true),
    }
}

// The column that an expression is by itself.
fn lone_column(expr: &Expr) -> Option<At>
    ensures { result ≡ spec.lone_column expr.now }
{
    match expr {
        Expr::Int(_) => None,
        Expr::Text(_) => None,
        Expr::Column(at) => Some(*at),
        Expr::Sum(_) => None,
        Expr::Product(_) => None,
        Expr::Neg(_) => None,
        Expr::Abs(_) => None,
    }
}

fn same_column(one: At, other: At) -> bool
    ensures { result ≡ spec.same_column one other }
{
    one.source == other.source && one.column == other.column
}

fn is_among(at: At, group: &[At]) -> bool
    ensures { result ≡ spec.is_among at group.now }
{
    group.iter().any(|other| same_column(*other, at))
}

fn is_in_group(group: &[At], at: Option<At>) -> bool
    ensures { result ≡ spec.is_in_group group.now at }
{
    match at {
        None => false,
        Some(at) => is_among(at, group),
    }
}

// Whether an item may stand in a select with this group: an aggregate, or a column of GROUP BY.
#[tactic(auto, unfolding(crate::specs::Selects::fits_group))]
fn fits_group(group: &[At], item: &Item) -> bool
    ensures { result ≡ spec.fits_group group.now item.now }
{
    match item {
        Item::Plain(expr) => is_in_group(group, lone_column(expr)),
        Item::Sum(_) => true,
        Item::Count => true,
        Item::Min(_) => true,
        Item::Max(_) => true,
    }
}

fn has_name(name: &Name, columns: &[ItemColumn]) -> bool
    ensures { result ≡ spec.has_name name.now columns.now }
{
    columns.iter().any(|column| column.name == *name)
}

// The rules of an item, one after the other.
fn check_rules(
    rules: Rules,
    group: &[At],
    before: &[ItemColumn],
    tree: &TreeItem,
    made: TypedItem,
) -> Result<TypedItem, SoundFault>
    ensures { result ≡ spec.item_ruled rules group.now before.now tree.now made }
{
    if rules.named && has_name(&tree.name.name, before) {
        return Err(SoundFault::SameName(tree.name.place));
    }
    if rules.distinct && made.kind.unknown {
        return Err(SoundFault::NotFixed(tree.place));
    }
    if rules.grouped && !fits_group(group, &made.item) {
        return Err(SoundFault::NotGrouped(tree.place));
    }
    Ok(made)
}

#[tactic(auto, unfolding(crate::specs::Selects::with_item))]
fn add_item(
    alloc: Global,
    rules: Rules,
    scope: &[InScope<'_>],
    group: &[At],
    before: &mut Items,
    tree: &TreeItem,
) -> Result<(), SoundFault>
    ensures { ChecksInto (spec.with_item rules (scope_of scope.now) group.now before.old tree.now) before.new result }
{
    let made = check_value(alloc, scope, &tree.value)?;
    let made = check_rules(rules, group, before.columns.as_slice(), tree, made)?;
    before.items.push(made.item)?;
    before.columns.push(ItemColumn {
        name: tree.name.name.copy(alloc)?,
        place: tree.place,
        kind: made.kind,
    })?;
    Ok(())
}

/// The items of a select.
pub fn check_items(
    alloc: Global,
    rules: Rules,
    scope: &[InScope<'_>],
    group: &[At],
    trees: &[TreeItem],
) -> Result<Items, SoundFault>
    ensures { ChecksTo (in_turn (spec.with_item rules (scope_of scope.now) group.now) spec.no_items trees.now) result }
{
    let mut before = Items {
        items: List::new(alloc),
        columns: List::new(alloc),
    };
    for tree in trees {
        add_item(alloc, rules, scope, group, &mut before, tree)?;
    }
    Ok(before)
}
