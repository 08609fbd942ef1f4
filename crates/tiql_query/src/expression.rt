//! Expressions over the rows of the sources of a select.
ghost use Rattle.std.specs.Prelude.{◌≡◌, IfOk};

use base_kit::{Boxed, Duplicate, List, Memory, Txt};
use std::alloc::Global;

/// A column of one of the sources that are in scope: those of a select, or the one relation of a requirement, a goal, a
/// bound or a condition of a hypothetical table.
#[derive(Clone, Copy, Debug, PartialEq, Eq)]
pub struct At {
    /// The source's number in the order of the text, from 0.
    pub source: u32,
    /// The column's number in the source, from 0.
    pub column: u32,
}

/// One part of a sum, with its sign.
#[cycle(expression)]
#[derive(Debug, Drop)]
pub struct Signed {
    /// Whether it is taken away.
    pub minus: bool,
    /// The part.
    pub part: Expr,
}

/// An expression (docs/LANGUAGE.md, "Grammar"). All but `Text`, and columns of texts, are whole numbers.
#[cycle(expression)]
#[derive(Debug, Drop)]
pub enum Expr {
    /// A whole number from 0 to 10^15.
    Int(i64),
    /// A text.
    Text(Txt),
    /// What stands in a column.
    Column(At),
    /// The sum of two or more parts.
    Sum(List<Signed>),
    /// The product of two or more factors, of which at most one is unknown.
    Product(List<Expr>),
    /// The number with its sign turned.
    Neg(Boxed<Expr>),
    /// The size of the number.
    Abs(Boxed<Expr>),
}

impl Duplicate for At {
    fn copy(&self, _alloc: Global) -> Result<At, Memory> {
        Ok(*self)
    }
}

impl Expr {
    /// An expression equal to this one.
    #[cycle(copy_expression)]
    pub fn copy(&self, alloc: Global) -> Result<Expr, Memory>
        ensures copy { IfOk result (λ made. made ≡ self.now) }
    {
        match self {
            Expr::Int(number) => Ok(Expr::Int(*number)),
            Expr::Text(text) => Ok(Expr::Text(text.copy(alloc)?)),
            Expr::Column(at) => Ok(Expr::Column(*at)),
            Expr::Sum(parts) => Ok(Expr::Sum(copy_parts(alloc, parts.as_slice())?)),
            Expr::Product(factors) => Ok(Expr::Product(copy_factors(alloc, factors.as_slice())?)),
            Expr::Neg(part) => Ok(Expr::Neg(copy_boxed(alloc, part.get())?)),
            Expr::Abs(part) => Ok(Expr::Abs(copy_boxed(alloc, part.get())?)),
        }
    }
}

impl Signed {
    /// A part equal to this one.
    #[cycle(copy_expression)]
    pub fn copy(&self, alloc: Global) -> Result<Signed, Memory>
        ensures copy { IfOk result (λ made. made ≡ self.now) }
    {
        Ok(Signed {
            minus: self.minus,
            part: self.part.copy(alloc)?,
        })
    }
}

#[cycle(copy_expression)]
fn copy_boxed(alloc: Global, part: &Expr) -> Result<Boxed<Expr>, Memory>
    ensures { IfOk result (λ made. made ≡ part.now) }
{
    Ok(Boxed::new(alloc, part.copy(alloc)?)?)
}

#[cycle(copy_expression)]
fn copy_parts(alloc: Global, parts: &[Signed]) -> Result<List<Signed>, Memory>
    ensures { IfOk result (λ made. made ≡ parts.now) }
{
    let mut made = List::new(alloc);
    for part in parts {
        made.push(part.copy(alloc)?)?;
    }
    Ok(made)
}

#[cycle(copy_expression)]
fn copy_factors(alloc: Global, factors: &[Expr]) -> Result<List<Expr>, Memory>
    ensures { IfOk result (λ made. made ≡ factors.now) }
{
    let mut made = List::new(alloc);
    for factor in factors {
        made.push(factor.copy(alloc)?)?;
    }
    Ok(made)
}

impl Duplicate for Expr {
    fn copy(&self, alloc: Global) -> Result<Expr, Memory> {
        Expr::copy(self, alloc)
    }
}

impl Duplicate for Signed {
    fn copy(&self, alloc: Global) -> Result<Signed, Memory> {
        Signed::copy(self, alloc)
    }
}
