//! Truths of conditions on rows.

ghost use Rattle.std.specs.Prelude.{◌≡◌, map, Ok, Result, Bool};
ghost use Rattle.std.specs.List.{list_all, list_any};
ghost use Rattle.base_kit.specs.Asking.{and_then, all_of};
ghost use Rattle.base_kit.specs.Orders.{value_order};
ghost use Rattle.row_values.specs.Values as value;
ghost use Rattle.row_values.specs.Asked as spec;

use crate::expression::{number, text};
use crate::fault::Wide;
use base_kit::Row;
use std::cmp::Ordering;
use tiql_query::{Cmp, Cond, Expr};

/// Whether a condition holds on a row of each source in scope. All its values are asked in the order of the text
/// (docs/MEANING.md, "The number told").
#[cycle(truth)]
#[tactic(auto, using(crate::proofs::Evaluate::truths))]
pub fn truth(test: &Cond, rows: &[&Row]) -> Result<bool, Wide>
    ensures { result ≡ spec.truth_asked (map (λ row. row.now) rows.now) test.now }
{
    match test {
        Cond::Compare(test, one, other) => compare(*test, one, other, rows),
        Cond::Not(part) => Ok(!truth(part.get(), rows)?),
        Cond::And(parts) => all_hold(parts.as_slice(), rows),
        Cond::Or(parts) => one_holds(parts.as_slice(), rows),
    }
}

#[cycle(truth)]
#[tactic(auto, using(crate::proofs::Evaluate::truths))]
fn all_hold(parts: &[Cond], rows: &[&Row]) -> Result<bool, Wide>
    ensures { result ≡ and_then (all_of (map (spec.truth_asked (map (λ row. row.now) rows.now)) parts.now)) (λ bs. Ok (list_all (λ b. b) bs)) }
{
    let mut all = true;
    for part in parts {
        let holds = truth(part, rows)?;
        all = all && holds;
    }
    Ok(all)
}

#[cycle(truth)]
#[tactic(auto, using(crate::proofs::Evaluate::truths))]
fn one_holds(parts: &[Cond], rows: &[&Row]) -> Result<bool, Wide>
    ensures { result ≡ and_then (all_of (map (spec.truth_asked (map (λ row. row.now) rows.now)) parts.now)) (λ bs. Ok (list_any (λ b. b) bs)) }
{
    let mut one = false;
    for part in parts {
        let holds = truth(part, rows)?;
        one = one || holds;
    }
    Ok(one)
}

#[tactic(auto, unfolding(crate::specs::Asked::compare_asked))]
fn compare(test: Cmp, one: &Expr, other: &Expr, rows: &[&Row]) -> Result<bool, Wide>
    ensures { result ≡ spec.compare_asked (map (λ row. row.now) rows.now) test one.now other.now }
{
    let left = number(one, rows)?;
    let right = number(other, rows)?;
    Ok(holds(test, order(one, left, other, right, rows)))
}

/// How two expressions stand to each other, whose numbers are known.
fn order(one: &Expr, left: i64, other: &Expr, right: i64, rows: &[&Row]) -> Ordering
    ensures { result ≡ value_order (spec.value_of (spec.text_of (map (λ row. row.now) rows.now) one.now) left) (spec.value_of (spec.text_of (map (λ row. row.now) rows.now) other.now) right) }
{
    match text(one, rows) {
        Some(one) => match text(other, rows) {
            Some(other) => one.cmp(other),
            None => Ordering::Greater,
        },
        None => match text(other, rows) {
            Some(_) => Ordering::Less,
            None => left.cmp(&right),
        },
    }
}

/// Whether a comparison holds of values that stand so to each other.
#[tactic(auto, unfolding(crate::specs::Values::holds))]
fn holds(test: Cmp, order: Ordering) -> bool
    ensures { result ≡ value.holds test order }
{
    match test {
        Cmp::Eq => order == Ordering::Equal,
        Cmp::Ne => order != Ordering::Equal,
        Cmp::Lt => order == Ordering::Less,
        Cmp::Le => order != Ordering::Greater,
        Cmp::Gt => order == Ordering::Greater,
        Cmp::Ge => order != Ordering::Less,
    }
}
