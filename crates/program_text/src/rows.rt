//! The lines of the rows and of what is to be least.
ghost use Rattle.std.specs.Prelude.{◌≡◌, ◌++◌, OnOk, flat_map};
ghost use Rattle.program_text.specs.Text as spec;

use crate::put::{put, put_count, put_heading, put_number, put_product};
use base_kit::Memory;
use ip_rows::{Coef, IpRow};

/// Appends how many rows there are, and a line for each.
#[tactic(auto, unfolding(crate::specs::Text::rows_bytes))]
pub(crate) fn put_rows(out: &mut Vec<u8>, rows: &[IpRow]) -> Result<(), Memory>
    ensures { OnOk result (out.new.items ≡ out.old.items ++ spec.rows_bytes rows.now) }
{
    put_heading(out, b"rows", rows.len())?;
    put_all(out, rows)
}

/// Appends a line for each row.
fn put_all(out: &mut Vec<u8>, rows: &[IpRow]) -> Result<(), Memory>
    ensures { OnOk result (out.new.items ≡ out.old.items ++ spec.numbered spec.row_line 0 rows.now) }
{
    for (number, row) in rows.iter().enumerate() {
        put_row(out, number, row)?;
    }
    Ok(())
}

/// Appends the line of a row.
#[tactic(auto, unfolding(crate::specs::Text::row_line))]
fn put_row(out: &mut Vec<u8>, number: usize, row: &IpRow) -> Result<(), Memory>
    ensures { OnOk result (out.new.items ≡ out.old.items ++ spec.row_line number row.now) }
{
    put_count(out, number as u64)?;
    put(out, b" >= ")?;
    put_number(out, row.least)?;
    put_coefs(out, row.terms.as_slice())?;
    put(out, b"\n")
}

/// Appends the line of what is to be least: a constant and terms.
#[tactic(auto, unfolding(crate::specs::Text::aim_line))]
pub(crate) fn put_aim(out: &mut Vec<u8>, constant: i64, aim: &[Coef]) -> Result<(), Memory>
    ensures { OnOk result (out.new.items ≡ out.old.items ++ spec.aim_line constant aim.now) }
{
    put(out, b"objective ")?;
    put_number(out, constant)?;
    put_coefs(out, aim)?;
    put(out, b"\n")
}

fn put_coefs(out: &mut Vec<u8>, coefs: &[Coef]) -> Result<(), Memory>
    ensures { OnOk result (out.new.items ≡ out.old.items ++ flat_map spec.coef_word coefs.now) }
{
    for coef in coefs {
        put_product(out, coef.factor, coef.column)?;
    }
    Ok(())
}
