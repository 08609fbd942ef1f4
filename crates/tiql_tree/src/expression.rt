//! Expressions as they are written.

use base_kit::{Boxed, List, Name, Place, Txt};

/// A column, by its name alone or behind a relation's name and a point.
#[derive(Debug, Drop)]
pub struct TreeRef {
    /// The place of the first name.
    pub place: Place,
    /// The name before the point.
    pub relation: Option<Name>,
    /// The column's name.
    pub column: Name,
}

/// One part of a sum, with its sign.
#[cycle(expression)]
#[derive(Debug, Drop)]
pub struct TreeSigned {
    /// Whether it is taken away; the first part of a sum never is.
    pub minus: bool,
    /// The part.
    pub part: TreeExpr,
}

/// An expression (docs/LANGUAGE.md, "Grammar").
#[cycle(expression)]
#[derive(Debug, Drop)]
pub struct TreeExpr {
    /// The place of its first token, a grouping sign among them.
    pub place: Place,
    /// What it is.
    pub form: TreeForm,
}

/// The forms of an expression. Grouping signs are not among them: a sum or product that is grouped stays a part of its own.
#[cycle(expression)]
#[derive(Debug, Drop)]
pub enum TreeForm {
    /// A whole number from 0 to 10^15.
    Number(i64),
    /// A text in quotes, by its value.
    Text(Txt),
    /// A column.
    Ref(TreeRef),
    /// Two or more parts.
    Sum(List<TreeSigned>),
    /// Two or more factors.
    Product(List<TreeExpr>),
    /// Behind a minus sign of its own.
    Neg(Boxed<TreeExpr>),
    /// The size of a number.
    Abs(Boxed<TreeExpr>),
}
