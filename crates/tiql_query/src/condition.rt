//! Conditions over the rows of the sources of a select.
ghost use Rattle.std.specs.Prelude.{◌≡◌, IfOk};

use crate::expression::Expr;
use base_kit::{Boxed, Duplicate, List, Memory};
use std::alloc::Global;

/// The comparisons. Numbers compare by size, and texts by their bytes.
#[derive(Clone, Copy, Debug, PartialEq, Eq)]
pub enum Cmp {
    /// `=`
    Eq,
    /// `<>`
    Ne,
    /// `<`
    Lt,
    /// `<=`
    Le,
    /// `>`
    Gt,
    /// `>=`
    Ge,
}

/// A condition (docs/LANGUAGE.md, "Grammar").
#[derive(Debug, Drop)]
pub enum Cond {
    /// Two expressions of one type, compared.
    Compare(Cmp, Expr, Expr),
    /// NOT of a condition.
    Not(Boxed<Cond>),
    /// Two or more parts, all of which are to hold.
    And(List<Cond>),
    /// Two or more parts, one of which is to hold.
    Or(List<Cond>),
}

impl Duplicate for Cmp {
    fn copy(&self, _alloc: Global) -> Result<Cmp, Memory> {
        Ok(*self)
    }
}

impl Cond {
    /// A condition equal to this one.
    #[cycle(copy_condition)]
    pub fn copy(&self, alloc: Global) -> Result<Cond, Memory>
        ensures copy { IfOk result (λ made. made ≡ self.now) }
    {
        match self {
            Cond::Compare(test, one, other) => {
                Ok(Cond::Compare(*test, one.copy(alloc)?, other.copy(alloc)?))
            }
            Cond::Not(part) => Ok(Cond::Not(copy_boxed(alloc, part.get())?)),
            Cond::And(parts) => Ok(Cond::And(copy_parts(alloc, parts.as_slice())?)),
            Cond::Or(parts) => Ok(Cond::Or(copy_parts(alloc, parts.as_slice())?)),
        }
    }
}

#[cycle(copy_condition)]
fn copy_boxed(alloc: Global, part: &Cond) -> Result<Boxed<Cond>, Memory>
    ensures { IfOk result (λ made. made ≡ part.now) }
{
    Ok(Boxed::new(alloc, part.copy(alloc)?)?)
}

#[cycle(copy_condition)]
fn copy_parts(alloc: Global, parts: &[Cond]) -> Result<List<Cond>, Memory>
    ensures { IfOk result (λ made. made ≡ parts.now) }
{
    let mut made = List::new(alloc);
    for part in parts {
        made.push(part.copy(alloc)?)?;
    }
    Ok(made)
}

impl Duplicate for Cond {
    fn copy(&self, alloc: Global) -> Result<Cond, Memory> {
        Cond::copy(self, alloc)
    }
}
