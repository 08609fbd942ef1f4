//! Conditions as they are written.

use crate::expression::TreeExpr;
use base_kit::{Boxed, List};

/// The comparisons.
#[derive(Clone, Copy, Debug, PartialEq, Eq)]
pub enum TreeCmp {
    /// `=`
    Eq,
    /// `<>`
    Ne,
    /// `<`
    Lt,
    /// `<=`
    Le,
    /// `>`
    Gt,
    /// `>=`
    Ge,
}

/// A condition (docs/LANGUAGE.md, "Grammar"). Grouping signs are not in it: an AND or OR that is grouped stays a part of its
/// own.
#[derive(Debug, Drop)]
pub enum TreeCond {
    /// Two expressions, compared.
    Compare(TreeCmp, TreeExpr, TreeExpr),
    /// NOT of a condition.
    Not(Boxed<TreeCond>),
    /// Two or more parts, all of which are to hold.
    And(List<TreeCond>),
    /// Two or more parts, one of which is to hold.
    Or(List<TreeCond>),
}
