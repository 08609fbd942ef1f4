//! What names of columns mean.
ghost use Rattle.std.specs.Prelude.{◌≡◌, IfOk};
ghost use Rattle.std.specs.Option.{option_map};
ghost use Rattle.tiql_check.specs.Scopes as spec;
ghost use Rattle.tiql_check.specs.Turns.{ChecksTo};

use crate::SoundFault;
use crate::number::number_of;
use base_kit::{Memory, Name};
use tiql_query::{At, Column};
use tiql_tree::TreeRef;

/// What stands in a column or is made by an expression.
#[derive(Clone, Copy, Debug, PartialEq, Eq)]
pub struct Kind {
    /// Whether it is a text, and not a whole number.
    pub text: bool,
    /// Whether it may differ from world to world.
    pub unknown: bool,
}

/// A column of a relation.
#[derive(Clone, Copy, Debug, PartialEq, Eq)]
pub struct Found {
    /// Its number in the relation.
    pub number: u32,
    /// What stands in it.
    pub kind: Kind,
}

/// The column that a name means.
#[derive(Clone, Copy, Debug, PartialEq, Eq)]
pub struct Meant {
    /// Where it is.
    pub at: At,
    /// What stands in it.
    pub kind: Kind,
}

/// A relation whose columns may be named.
#[derive(Clone, Copy)]
pub struct InScope<'a> {
    /// The name that may stand before its columns. None may within a hypothetical table.
    pub alias: Option<&'a Name>,
    /// Its columns.
    pub columns: &'a [Column],
}

impl Kind {
    /// A whole number, unknown or fixed.
    pub fn number(unknown: bool) -> Kind
        ensures { result ≡ spec.number unknown }
    {
        Kind {
            text: false,
            unknown,
        }
    }
}

/// What stands in a column.
pub fn kind_of(column: &Column) -> Kind
    ensures { result ≡ spec.kind_of column.now }
{
    Kind {
        text: column.text,
        unknown: column.unknown,
    }
}

/// The column of this name, if there is one.
#[tactic(auto, unfolding(crate::specs::Scopes::column_named))]
pub fn find_column(columns: &[Column], name: &Name) -> Result<Option<Found>, Memory>
    ensures found { IfOk result (λ found. found ≡ spec.column_named name.now 0 columns.now) }
{
    for (number, column) in columns.iter().enumerate() {
        if column.name == *name {
            return Ok(Some(Found {
                number: number_of(number)?,
                kind: kind_of(column),
            }));
        }
    }
    Ok(None)
}

// Whether columns of a relation with this alias may stand behind this name and a point, or by themselves.
fn may_qualify(qualifier: Option<&Name>, alias: Option<&Name>) -> bool
    ensures { result ≡ spec.may_qualify (option_map (λ name. name.now) qualifier.entry) (option_map (λ name. name.now) alias.entry) }
{
    match qualifier {
        None => true,
        Some(name) => match alias {
            None => false,
            Some(alias) => *alias == *name,
        },
    }
}

// The column of this relation that a name may mean.
fn find_in(relation: &InScope<'_>, column: &TreeRef) -> Result<Option<Found>, Memory>
    ensures found { IfOk result (λ found. found ≡ spec.fitting column.now (spec.seen relation.now)) }
{
    if may_qualify(column.relation.as_ref(), relation.alias) {
        find_column(relation.columns, &column.column)
    } else {
        Ok(None)
    }
}

/// The column that a name means: a bare name must be that of a column of one relation in scope, and of no other.
pub fn resolve(scope: &[InScope<'_>], column: &TreeRef) -> Result<Meant, SoundFault>
    ensures { ChecksTo (spec.meant (spec.scope_of scope.now) column.now) result }
{
    let mut meant = None;
    for (source, relation) in scope.iter().enumerate() {
        let Some(found) = find_in(relation, column)? else {
            continue;
        };
        if meant.is_some() {
            return Err(SoundFault::SameName(column.place));
        }
        let at = At {
            source: number_of(source)?,
            column: found.number,
        };
        meant = Some(Meant {
            at,
            kind: found.kind,
        });
    }
    meant.ok_or(SoundFault::UnknownName(column.place))
}
