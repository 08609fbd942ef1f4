//! Writes expressions, with signs that group only where they are needed.
ghost use Rattle.std.specs.Prelude.{◌≡◌, ◌++◌, OnOk, map};
ghost use Rattle.tiql_tree.specs.Printed as spec;
ghost use Rattle.tiql_tree.specs.Rooms as rooms;

use crate::expression::{TreeExpr, TreeForm, TreeSigned};
use crate::words::{put, put_number, put_ref, put_text};
use base_kit::Memory;
use std::alloc::Global;

/// What may stand at a place without signs that group it.
#[derive(Clone, Copy)]
pub enum Room {
    /// A sum.
    Sum,
    /// A product.
    Product,
    /// A factor.
    Factor,
}

fn takes_sum(room: Room) -> bool
    ensures { result ≡ rooms.takes_sum room }
{
    match room {
        Room::Sum => true,
        Room::Product => false,
        Room::Factor => false,
    }
}

fn takes_product(room: Room) -> bool
    ensures { result ≡ rooms.takes_product room }
{
    match room {
        Room::Sum => true,
        Room::Product => true,
        Room::Factor => false,
    }
}

/// Appends an expression.
#[cycle(put)]
pub fn put_expr(alloc: Global, out: &mut Vec<u8>, expr: &TreeExpr, room: Room) -> Result<(), Memory>
    ensures { OnOk result (out.new.items ≡ out.old.items ++ rooms.expr_bytes room (spec.expr_made expr.now)) }
{
    match &expr.form {
        TreeForm::Number(number) => put_number(alloc, out, *number),
        TreeForm::Text(text) => put_text(out, text.as_str()),
        TreeForm::Ref(column) => put_ref(out, column),
        TreeForm::Sum(parts) => {
            if takes_sum(room) {
                return put_terms(alloc, out, parts.as_slice());
            }
            put(out, b"( ")?;
            put_terms(alloc, out, parts.as_slice())?;
            put(out, b") ")
        }
        TreeForm::Product(parts) => {
            if takes_product(room) {
                return put_factors(alloc, out, parts.as_slice());
            }
            put(out, b"( ")?;
            put_factors(alloc, out, parts.as_slice())?;
            put(out, b") ")
        }
        TreeForm::Neg(part) => {
            put(out, b"- ")?;
            put_expr(alloc, out, part.get(), Room::Factor)
        }
        TreeForm::Abs(part) => {
            put(out, b"ABS ( ")?;
            put_expr(alloc, out, part.get(), Room::Sum)?;
            put(out, b") ")
        }
    }
}

// Appends the parts of a sum.
#[cycle(put)]
fn put_terms(alloc: Global, out: &mut Vec<u8>, parts: &[TreeSigned]) -> Result<(), Memory>
    ensures { OnOk result (out.new.items ≡ out.old.items ++ rooms.sum_bytes (map spec.signed_made parts.now)) }
{
    let [first, more @ ..] = parts else {
        return put(out, b"0 ");
    };
    put_expr(alloc, out, &first.part, Room::Product)?;
    for part in more {
        put(out, plus_or_minus(part.minus))?;
        put_expr(alloc, out, &part.part, Room::Product)?;
    }
    Ok(())
}

fn plus_or_minus(minus: bool) -> &'static [u8]
    ensures { result.now ≡ rooms.plus_or_minus minus }
{
    if minus { b"- " } else { b"+ " }
}

// Appends the factors of a product.
#[cycle(put)]
fn put_factors(alloc: Global, out: &mut Vec<u8>, parts: &[TreeExpr]) -> Result<(), Memory>
    ensures { OnOk result (out.new.items ≡ out.old.items ++ rooms.product_bytes (map spec.expr_made parts.now)) }
{
    let [first, more @ ..] = parts else {
        return put(out, b"1 ");
    };
    put_expr(alloc, out, first, Room::Factor)?;
    for part in more {
        put(out, b"* ")?;
        put_expr(alloc, out, part, Room::Factor)?;
    }
    Ok(())
}
