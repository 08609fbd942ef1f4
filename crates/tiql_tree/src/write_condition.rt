//! Writes conditions, with signs that group only where they are needed.
ghost use Rattle.std.specs.Prelude.{◌≡◌, ◌++◌, OnOk, map};
ghost use Rattle.tiql_tree.specs.Printed as spec;
ghost use Rattle.tiql_tree.specs.CondRooms as rooms;

use crate::condition::{TreeCmp, TreeCond};
use crate::expression::TreeExpr;
use crate::words::{cmp_text, put};
use crate::write_expression::{Room, put_expr};
use base_kit::Memory;
use std::alloc::Global;

/// What may stand at a place without signs that group it.
#[derive(Clone, Copy)]
pub enum CondRoom {
    /// An OR.
    Or,
    /// An AND.
    And,
    /// A unit.
    Unit,
}

fn takes_or(room: CondRoom) -> bool
    ensures { result ≡ rooms.takes_or room }
{
    match room {
        CondRoom::Or => true,
        CondRoom::And => false,
        CondRoom::Unit => false,
    }
}

fn takes_and(room: CondRoom) -> bool
    ensures { result ≡ rooms.takes_and room }
{
    match room {
        CondRoom::Or => true,
        CondRoom::And => true,
        CondRoom::Unit => false,
    }
}

/// Appends a condition.
#[cycle(put_cond)]
pub fn put_cond(
    alloc: Global,
    out: &mut Vec<u8>,
    cond: &TreeCond,
    room: CondRoom,
) -> Result<(), Memory>
    ensures { OnOk result (out.new.items ≡ out.old.items ++ rooms.cond_bytes room (spec.cond_made cond.now)) }
{
    match cond {
        TreeCond::Compare(cmp, one, other) => put_compare(alloc, out, *cmp, one, other),
        TreeCond::Not(part) => {
            put(out, b"NOT ")?;
            put_cond(alloc, out, part.get(), CondRoom::Unit)
        }
        TreeCond::And(parts) => {
            if takes_and(room) {
                return put_and(alloc, out, parts.as_slice());
            }
            put(out, b"[ ")?;
            put_and(alloc, out, parts.as_slice())?;
            put(out, b"] ")
        }
        TreeCond::Or(parts) => {
            if takes_or(room) {
                return put_or(alloc, out, parts.as_slice());
            }
            put(out, b"[ ")?;
            put_or(alloc, out, parts.as_slice())?;
            put(out, b"] ")
        }
    }
}

// Appends a comparison.
fn put_compare(
    alloc: Global,
    out: &mut Vec<u8>,
    cmp: TreeCmp,
    one: &TreeExpr,
    other: &TreeExpr,
) -> Result<(), Memory>
    ensures { OnOk result (out.new.items ≡ out.old.items ++ rooms.compare_bytes cmp one.now other.now) }
{
    put_expr(alloc, out, one, Room::Sum)?;
    put(out, cmp_text(cmp))?;
    put_expr(alloc, out, other, Room::Sum)
}

// Appends the parts of an AND.
#[cycle(put_cond)]
fn put_and(alloc: Global, out: &mut Vec<u8>, parts: &[TreeCond]) -> Result<(), Memory>
    ensures { OnOk result (out.new.items ≡ out.old.items ++ rooms.and_bytes (map spec.cond_made parts.now)) }
{
    let [first, more @ ..] = parts else {
        return put(out, b"0 = 0 ");
    };
    put_cond(alloc, out, first, CondRoom::Unit)?;
    for part in more {
        put(out, b"AND ")?;
        put_cond(alloc, out, part, CondRoom::Unit)?;
    }
    Ok(())
}

// Appends the parts of an OR.
#[cycle(put_cond)]
fn put_or(alloc: Global, out: &mut Vec<u8>, parts: &[TreeCond]) -> Result<(), Memory>
    ensures { OnOk result (out.new.items ≡ out.old.items ++ rooms.or_bytes (map spec.cond_made parts.now)) }
{
    let [first, more @ ..] = parts else {
        return put(out, b"0 <> 0 ");
    };
    put_cond(alloc, out, first, CondRoom::And)?;
    for part in more {
        put(out, b"OR ")?;
        put_cond(alloc, out, part, CondRoom::And)?;
    }
    Ok(())
}
