//! The lines of the columns.
ghost use Rattle.std.specs.Prelude.{◌≡◌, ◌++◌, OnOk, slice_get};
ghost use Rattle.program_text.specs.Text as spec;

use crate::put::{put, put_count, put_heading, put_number, put_place};
use base_kit::Memory;
use bool_encode::Stand;
use ip_rows::{Bounds, ColumnKind, IpColumn};

/// Appends how many columns there are, and a line for each.
#[tactic(auto, unfolding(crate::specs::Text::columns_bytes))]
pub(crate) fn put_columns(
    out: &mut Vec<u8>,
    stands: &[Stand],
    columns: &[IpColumn],
) -> Result<(), Memory>
    ensures { OnOk result (out.new.items ≡ out.old.items ++ spec.columns_bytes stands.now columns.now) }
{
    put_heading(out, b"columns", columns.len())?;
    put_all(out, stands, columns)
}

/// Appends a line for each column.
fn put_all(out: &mut Vec<u8>, stands: &[Stand], columns: &[IpColumn]) -> Result<(), Memory>
    ensures { OnOk result (out.new.items ≡ out.old.items ++ spec.numbered (spec.column_line stands.now) 0 columns.now) }
{
    for (number, column) in columns.iter().enumerate() {
        put_column(out, stands, number, *column)?;
    }
    Ok(())
}

/// Appends the line of a column.
#[tactic(auto, unfolding(crate::specs::Text::column_line))]
fn put_column(
    out: &mut Vec<u8>,
    stands: &[Stand],
    number: usize,
    column: IpColumn,
) -> Result<(), Memory>
    ensures { OnOk result (out.new.items ≡ out.old.items ++ spec.column_line stands.now number column) }
{
    put_count(out, number as u64)?;
    put(out, kind_word(column.kind))?;
    put_sides(out, column.sides)?;
    put_stand(out, stand_at(stands, number))?;
    put(out, b"\n")
}

/// Appends the least and the greatest number of a column.
#[tactic(auto, unfolding(crate::specs::Text::sides_words))]
fn put_sides(out: &mut Vec<u8>, sides: Bounds) -> Result<(), Memory>
    ensures { OnOk result (out.new.items ≡ out.old.items ++ spec.sides_words sides) }
{
    put_number(out, sides.lo)?;
    put(out, b" ")?;
    put_number(out, sides.hi)
}

/// The word of a kind, between spaces.
fn kind_word(kind: ColumnKind) -> &'static [u8]
    ensures { result.now ≡ spec.kind_word kind }
{
    match kind {
        ColumnKind::World => b" world ",
        ColumnKind::Switch => b" switch ",
        ColumnKind::Value => b" value ",
    }
}

/// What the column with this number stands for.
fn stand_at(stands: &[Stand], number: usize) -> Option<Stand>
    ensures { result ≡ slice_get stands.now number }
{
    stands.get(number).copied()
}

/// Appends what a column stands for; nothing where it is a choice of the query.
#[tactic(auto, unfolding(crate::specs::Text::stand_words))]
fn put_stand(out: &mut Vec<u8>, stand: Option<Stand>) -> Result<(), Memory>
    ensures { OnOk result (out.new.items ≡ out.old.items ++ spec.stand_words stand) }
{
    match stand {
        None => Ok(()),
        Some(Stand::World(_)) => Ok(()),
        Some(Stand::Node(node)) => put_node(out, node),
        Some(Stand::Selector { node, pair }) => put_selector(out, node, pair),
    }
}

#[tactic(auto, unfolding(crate::specs::Text::node_words))]
fn put_node(out: &mut Vec<u8>, node: u32) -> Result<(), Memory>
    ensures { OnOk result (out.new.items ≡ out.old.items ++ spec.node_words node) }
{
    put(out, b" node")?;
    put_place(out, node)
}

/// Appends the Min and the pair of a selector.
#[tactic(auto, unfolding(crate::specs::Text::selector_words))]
fn put_selector(out: &mut Vec<u8>, node: u32, pair: u32) -> Result<(), Memory>
    ensures { OnOk result (out.new.items ≡ out.old.items ++ spec.selector_words node pair) }
{
    put_node(out, node)?;
    put(out, b" pair ")?;
    put_count(out, u64::from(pair) + 1)
}
