//! Values of tables and views, rows of them, and their order.
ghost use Rattle.std.specs.Prelude.{◌≡◌, ◌↔◌};
ghost use Rattle.std.specs.Cmp.{IsTotalOrder};
ghost use Rattle.base_kit.specs.Orders as spec;

use crate::{Duplicate, List, Memory, Txt};
use std::alloc::Global;
use std::cmp::Ordering;

/// A whole number or a text (docs/MEANING.md). Numbers compare by size, texts by their bytes, and every number
/// comes before every text.
#[derive(Debug, Drop, PartialEq, Eq, PartialOrd, Ord, Hash)]
pub enum Value {
    Int(i64),
    Text(Txt),
}

/// A row of a table or a view: a value for each column, in order.
pub type Row = List<Value>;

impl Value {
    /// Compares two values.
    #[tactic(auto, using(crate::proofs::Orders::order_laws))]
    pub fn order(&self, other: &Value) -> Ordering
        ensures value { result ≡ spec.value_order self.now other.now }
        ensures equal { (result ≡ Ordering.Equal) ↔ (self.now ≡ other.now) }
        ensures total { IsTotalOrder spec.value_order }
    {
        self.cmp(other)
    }
}

/// Compares two rows by their first columns that differ; a row comes before every longer one that begins with it.
#[tactic(auto, using(crate::proofs::Orders::order_laws))]
pub fn row_order(one: &[Value], other: &[Value]) -> Ordering
    ensures value { result ≡ spec.row_order one.now other.now }
    ensures equal { (result ≡ Ordering.Equal) ↔ (one.now ≡ other.now) }
    ensures total { IsTotalOrder spec.row_order }
{
    one.cmp(other)
}

impl Duplicate for Value {
    fn copy(&self, alloc: Global) -> Result<Value, Memory> {
        match self {
            Value::Int(number) => Ok(Value::Int(*number)),
            Value::Text(text) => Ok(Value::Text(text.copy(alloc)?)),
        }
    }
}
