//! The bytes of a drill, from its number.

ghost use Rattle.std.specs.Prelude.{◌≡◌, ◌+◌, ◌*◌, ◌<◌, ◌≤◌, ◌++◌, IfOk, OnOk};
ghost use Rattle.drill_gen.specs.Drills.{query_text, table_text, header, item_line, items_text};

use crate::Drill;
use base_kit::{List, Memory};
use std::alloc::Global;

/// The most suppliers of a drill.
pub const MOST_SUPPLIERS: u32 = 5000;

const QUERY: &[u8] = b"TABLE item (id INT, sup TEXT, price INT, qty INT) KEY (id);\n\
    HYPO h FROM item SET qty IN 0 .. qty;\n\
    VIEW load AS SELECT sup, SUM(qty) AS n FROM h GROUP BY sup;\n\
    REQUIRE ALL load HAVE n <= 12;\n\
    MAXIMIZE SUM(price * qty) FROM h;\n";

/// The drill of so many suppliers, 1 to 5,000, each with eight items (docs/REDUCTION.md). `Err` is want of memory.
pub fn drill(alloc: Global, n: u32) -> Result<Drill, Memory>
    requires some { 1 ≤ n }
    requires few { n ≤ 5000 }
    ensures query { IfOk result (λ made. made.query ≡ query_text) }
    ensures table { IfOk result (λ made. made.table ≡ table_text n) }
{
    let mut table = Vec::from_slice(alloc, b"id,sup,price,qty\n")?;
    put_items(alloc, &mut table, 8 * n)?;
    Ok(Drill {
        query: List::from_slice(alloc, QUERY)?,
        table: List::from_vec(table),
    })
}

/// Appends the lines of the items with the numbers 1 up to a last one.
fn put_items(alloc: Global, table: &mut Vec<u8>, last: u32) -> Result<(), Memory>
    requires { last ≤ 40000 }
    ensures { OnOk result (table.new.items ≡ table.old.items ++ items_text last) }
{
    for before in 0..last {
        put_item(alloc, table, before + 1)?;
    }
    Ok(())
}

/// Appends the line of one item.
#[tactic(auto, unfolding(crate::specs::Drills::item_line))]
fn put_item(alloc: Global, table: &mut Vec<u8>, id: u32) -> Result<(), Memory>
    requires some { 1 ≤ id }
    requires small { id ≤ 40000 }
    ensures { OnOk result (table.new.items ≡ table.old.items ++ item_line id) }
{
    let supplier = (id - 1) / 8 + 1;
    let price = 1 + 37 * id % 50;
    let quantity = 1 + 11 * id % 9;
    let line = format!(in alloc; "{id},s{supplier},{price},{quantity}\n")?;
    table.extend_from_slice(line.as_bytes())?;
    Ok(())
}
