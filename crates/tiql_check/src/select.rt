//! Selects.
ghost use Rattle.std.specs.Prelude.{◌≡◌, [], option_map};
ghost use Rattle.std.specs.List.{list_any};
ghost use Rattle.tiql_check.specs.Scopes.{scope_of};
ghost use Rattle.tiql_check.specs.Selects as spec;
ghost use Rattle.tiql_check.specs.Turns.{ChecksTo, ChecksToAs, ChecksInto, in_turn};

use crate::SoundFault;
use crate::condition::check_filter;
use crate::item::{ItemColumn, Rules, check_items};
use crate::known::{Known, columns_in, declared};
use crate::scope::{InScope, resolve};
use base_kit::{List, Name};
use std::alloc::Global;
use tiql_query::{At, Cond, Select, Source};
use tiql_tree::{TreeItem, TreeRef, TreeSelect, TreeSource, TreeValue};

/// A select, with the columns that it makes.
#[derive(Debug, Drop)]
pub struct Arm {
    /// The select.
    pub select: Select,
    /// The columns that its items make.
    pub columns: List<ItemColumn>,
}

/// The first relations behind FROM, with what they bring into scope.
#[derive(Drop)]
pub struct Lent<'a> {
    /// These relations.
    pub sources: List<Source>,
    /// Their aliases and columns.
    pub scope: Vec<InScope<'a>>,
}

fn is_alias(name: &Name, alias: Option<&Name>) -> bool
    ensures { result ≡ spec.is_alias name.now (option_map (λ alias. alias.now) alias.entry) }
{
    match alias {
        None => false,
        Some(alias) => *alias == *name,
    }
}

fn is_alias_of_any(name: &Name, scope: &[InScope<'_>]) -> bool
    ensures { result ≡ list_any (λ relation. spec.is_alias name.now (option_map (λ alias. alias.now) relation.alias)) scope.now }
{
    scope.iter().any(|relation| is_alias(name, relation.alias))
}

// The same, said of what stands behind the references.
fn has_alias(name: &Name, scope: &[InScope<'_>]) -> bool
    ensures { result ≡ spec.has_alias name.now (scope_of scope.now) }
{
    is_alias_of_any(name, scope)
}

// No two aliases of a select are one name.
fn add_source<'a>(
    known: &'a Known,
    before: &mut Lent<'a>,
    tree: &'a TreeSource,
) -> Result<(), SoundFault>
    ensures { ChecksInto (spec.with_source known.now (spec.taken before.old) tree.now) (spec.taken before.new) result }
{
    let source = declared(known, &tree.relation)?;
    if has_alias(&tree.alias.name, before.scope.as_slice()) {
        return Err(SoundFault::SameName(tree.alias.place));
    }
    before.sources.push(source)?;
    before.scope.push(InScope {
        alias: Some(&tree.alias.name),
        columns: columns_in(known, source),
    })?;
    Ok(())
}

#[tactic(auto, unfolding(crate::specs::Scopes::scope_of))]
fn check_sources<'a>(
    alloc: Global,
    known: &'a Known,
    trees: &'a [TreeSource],
) -> Result<Lent<'a>, SoundFault>
    ensures { ChecksToAs spec.taken (in_turn (spec.with_source known.now) spec.none_taken trees.now) result }
{
    let mut before = Lent {
        sources: List::new(alloc),
        scope: Vec::new(alloc),
    };
    for tree in trees {
        add_source(known, &mut before, tree)?;
    }
    Ok(before)
}

// Columns of GROUP BY are fixed.
fn add_group(
    scope: &[InScope<'_>],
    before: &mut List<At>,
    column: &TreeRef,
) -> Result<(), SoundFault>
    ensures { ChecksInto (spec.with_group (scope_of scope.now) before.old column.now) before.new result }
{
    let meant = resolve(scope, column)?;
    if meant.kind.unknown {
        return Err(SoundFault::NotFixed(column.place));
    }
    before.push(meant.at)?;
    Ok(())
}

fn check_group(
    alloc: Global,
    scope: &[InScope<'_>],
    columns: &[TreeRef],
) -> Result<List<At>, SoundFault>
    ensures { ChecksTo (in_turn (spec.with_group (scope_of scope.now)) [] columns.now) result }
{
    let mut before = List::new(alloc);
    for column in columns {
        add_group(scope, &mut before, column)?;
    }
    Ok(before)
}

fn is_aggregate(value: &TreeValue) -> bool
    ensures { result ≡ spec.is_aggregate value.now }
{
    match value {
        TreeValue::Plain(_) => false,
        TreeValue::Sum(_) => true,
        TreeValue::Count => true,
        TreeValue::Min(_) => true,
        TreeValue::Max(_) => true,
    }
}

fn has_aggregate(trees: &[TreeItem]) -> bool
    ensures { result ≡ spec.has_aggregate trees.now }
{
    trees.iter().any(|item| is_aggregate(&item.value))
}

// Whether GROUP BY is written or an item is an aggregate.
#[tactic(auto, unfolding(crate::specs::Selects::is_grouped))]
fn is_grouped(tree: &TreeSelect) -> bool
    ensures { result ≡ spec.is_grouped tree.now }
{
    !tree.group.is_empty() || has_aggregate(tree.items.as_slice())
}

// The select over these relations and with this filter.
#[tactic(auto, unfolding(crate::specs::Selects::items_in))]
fn check_select_items(
    alloc: Global,
    first: bool,
    taken: Lent<'_>,
    tree: &TreeSelect,
    filter: Option<Cond>,
) -> Result<Arm, SoundFault>
    ensures { ChecksTo (spec.items_in first (spec.taken taken.entry) tree.now filter) result }
{
    let scope = taken.scope.as_slice();
    let group = check_group(alloc, scope, tree.group.as_slice())?;
    let rules = Rules {
        named: first,
        distinct: tree.distinct,
        grouped: is_grouped(tree),
    };
    let all = check_items(alloc, rules, scope, group.as_slice(), tree.items.as_slice())?;
    if rules.grouped && rules.distinct {
        return Err(SoundFault::NotGrouped(tree.place));
    }
    let select = Select {
        distinct: tree.distinct,
        sources: taken.sources,
        filter,
        group: if rules.grouped { Some(group) } else { None },
        items: all.items,
    };
    Ok(Arm {
        select,
        columns: all.columns,
    })
}

/// A select. The first one of a view names the view's columns.
#[tactic(auto, unfolding(crate::specs::Selects::checked_select))]
pub fn check_select(
    alloc: Global,
    known: &Known,
    first: bool,
    tree: &TreeSelect,
) -> Result<Arm, SoundFault>
    ensures { ChecksTo (spec.checked_select known.now first tree.now) result }
{
    let taken = check_sources(alloc, known, tree.sources.as_slice())?;
    let filter = check_filter(alloc, taken.scope.as_slice(), &tree.filter)?;
    check_select_items(alloc, first, taken, tree, filter)
}
