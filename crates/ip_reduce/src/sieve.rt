//! Rows one after another: which are kept, and which is the first false one.
ghost use Rattle.std.specs.Prelude.{◌≡◌, ◌<◌, ◌^◌, [], None, Some, length, IfOk, OnOk};
ghost use Rattle.std.specs.Option.{option_or};
ghost use Rattle.ip_rows.specs.Programs.{sides_of};
ghost use Rattle.ip_reduce.specs.Rows.{IsLight};
ghost use Rattle.ip_reduce.specs.Sieves.{IsReady, Takes};

use crate::chains::Chains;
use crate::put_in::asks;
use base_kit::Memory;
use ip_rows::{IpColumn, IpRow};
use std::alloc::Global;

/// The kept ones of some rows, their numbers, and the first false row.
#[derive(Drop)]
pub(crate) struct Sieve {
    pub(crate) rows: Vec<IpRow>,
    pub(crate) full: Vec<u32>,
    pub(crate) false_row: Option<u32>,
    pub(crate) chains: Chains,
}

/// The sieve through which no row went yet, for so many rows.
pub(crate) fn new_sieve(alloc: Global, rows: usize) -> Result<Sieve, Memory>
    requires { rows < 2 ^ 32 }
    ensures ready { IfOk result IsReady }
    ensures rows { IfOk result (λ made. made.rows.items ≡ []) }
    ensures full { IfOk result (λ made. made.full.items ≡ []) }
    ensures false_row { IfOk result (λ made. made.false_row ≡ None) }
{
    Ok(Sieve {
        rows: Vec::new(alloc),
        full: Vec::new(alloc),
        false_row: None,
        chains: Chains::new(alloc, rows)?,
    })
}

/// Takes the next row, which has the fixed columns put in, and tells whether it is kept.
pub(crate) fn take_row(
    sieve: &mut Sieve,
    columns: &[IpColumn],
    number: u32,
    row: IpRow,
) -> Result<bool, Memory>
    requires ready { IsReady sieve.old }
    requires few { length sieve.old.rows.items < 2 ^ 31 }
    requires light { IsLight (sides_of columns.now) row.terms }
    ensures ready { OnOk result (IsReady sieve.new) }
    ensures takes { IfOk result (Takes (sides_of columns.now) number row sieve.old sieve.new) }
{
    if !asks(columns, &row) {
        return Ok(false);
    }
    if row.terms.is_empty() {
        sieve.false_row = first_false(sieve.false_row, number);
        return Ok(false);
    }
    if sieve.chains.has(sieve.rows.as_slice(), &row) {
        return Ok(false);
    }
    sieve.chains.add(sieve.rows.as_slice(), &row)?;
    sieve.rows.push(row)?;
    sieve.full.push(number)?;
    Ok(true)
}

/// The first false row, where the row of this number is false too.
fn first_false(found: Option<u32>, number: u32) -> Option<u32>
    ensures { result ≡ option_or found (Some number) }
{
    found.or(Some(number))
}
