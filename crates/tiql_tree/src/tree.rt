//! The tree of a query as it is written.

use crate::condition::TreeCond;
use crate::expression::{TreeExpr, TreeRef};
use base_kit::{List, Name, Place};

/// A name with the place where it stands.
#[derive(Debug, Drop)]
pub struct Spot {
    pub name: Name,
    pub place: Place,
}

/// A query: its declarations in the order of the text, and its goal. A place in it is that of the part's first token, a
/// grouping sign among them.
#[derive(Debug, Drop)]
pub struct Tree {
    pub decls: List<Decl>,
    pub goal: TreeGoal,
}

/// A declaration.
#[derive(Debug, Drop)]
pub enum Decl {
    /// TABLE
    Table(TreeTable),
    /// HYPO
    Hypo(TreeHypo),
    /// VIEW
    View(TreeView),
    /// REQUIRE
    Require(TreeRequire),
}

/// A column of a table.
#[derive(Debug, Drop)]
pub struct TreeColumn {
    pub name: Spot,
    /// Whether it is TEXT, and not INT.
    pub text: bool,
}

/// A table, with one column or more.
#[derive(Debug, Drop)]
pub struct TreeTable {
    pub name: Spot,
    pub columns: List<TreeColumn>,
    /// The names of its KEY, none where KEY is not written.
    pub key: List<Spot>,
}

/// The bounds of a column whose values are chosen.
#[derive(Debug, Drop)]
pub struct TreeBound {
    pub name: Spot,
    pub lo: TreeExpr,
    pub hi: TreeExpr,
}

/// A hypothetical table.
#[derive(Debug, Drop)]
pub struct TreeHypo {
    pub name: Spot,
    /// The table behind FROM.
    pub table: Spot,
    /// The columns of its SET, none where SET is not written.
    pub set: List<TreeBound>,
    /// The condition behind WHERE.
    pub filter: Option<TreeCond>,
    /// The place of DROP, where it is written.
    pub dropped: Option<Place>,
}

/// A view, with one select or more.
#[derive(Debug, Drop)]
pub struct TreeView {
    pub name: Spot,
    /// The selects between UNION ALL.
    pub arms: List<TreeSelect>,
}

/// One select of a view, with one item or more and one source or more.
#[derive(Debug, Drop)]
pub struct TreeSelect {
    /// The place of SELECT.
    pub place: Place,
    /// Whether DISTINCT is written.
    pub distinct: bool,
    pub items: List<TreeItem>,
    pub sources: List<TreeSource>,
    /// The condition behind WHERE.
    pub filter: Option<TreeCond>,
    /// The columns behind GROUP BY, none where it is not written.
    pub group: List<TreeRef>,
}

/// A relation from which a select takes rows.
#[derive(Debug, Drop)]
pub struct TreeSource {
    pub relation: Spot,
    /// The name behind AS, or else the relation's own with its place.
    pub alias: Spot,
}

/// A column that a select makes.
#[derive(Debug, Drop)]
pub struct TreeItem {
    /// The place of its first token.
    pub place: Place,
    pub value: TreeValue,
    /// The name behind AS, or else the last name of the column that it is, with that name's place.
    pub name: Spot,
}

/// What a select makes a column of.
#[derive(Debug, Drop)]
pub enum TreeValue {
    /// An expression.
    Plain(TreeExpr),
    /// SUM
    Sum(TreeExpr),
    /// COUNT(*)
    Count,
    /// MIN
    Min(TreeExpr),
    /// MAX
    Max(TreeExpr),
}

/// A requirement on a relation.
#[derive(Debug, Drop)]
pub enum TreeRequire {
    /// ALL of its rows meet the condition.
    All(Spot, TreeCond),
    /// SOME row of it does.
    Some(Spot, TreeCond),
    /// It has NONE.
    None(Spot),
}

/// The goal of a query.
#[derive(Debug, Drop)]
pub enum TreeGoal {
    /// FIND: any world will do.
    Find,
    /// The sum of an expression over the rows of a relation.
    Sum {
        /// Whether the greatest sum is best, and not the least.
        maximize: bool,
        part: TreeExpr,
        relation: Spot,
    },
}
