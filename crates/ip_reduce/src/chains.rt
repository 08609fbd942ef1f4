//! Rows found again. Rows with equal hashes hang together in chains, so that a row is compared with few others. A link is 0 at
//! the end of a chain, and else one more than the place of a row.
ghost use Rattle.std.specs.Prelude.{◌≡◌, ◌↔◌, ◌<◌, ◌+◌, ◌^◌, ◌++◌, ◌∷◌, [], length, IfOk, OnOk, IsTrue, Contains};
ghost use Rattle.ip_reduce.specs.Chains.{AreLinked, Linked};
ghost use Rattle.ip_reduce.specs.Hashes.{hash_of};

use crate::hash::hash;
use base_kit::Memory;
use ip_rows::{Coef, IpRow};
use std::alloc::Global;

/// The chains of some rows.
#[derive(Drop)]
pub(crate) struct Chains {
    pub(crate) heads: Vec<u32>,
    pub(crate) hashes: Vec<u32>,
    pub(crate) links: Vec<u32>,
}

impl Chains {
    /// The chains of no rows, made for about so many.
    pub(crate) fn new(alloc: Global, rows: usize) -> Result<Chains, Memory>
        requires { rows < 2 ^ 32 }
        ensures { IfOk result (λ made. AreLinked [] made.hashes.items made.links.items made.heads.items) }
    {
        Ok(Chains {
            heads: vec![in alloc; 0u32; rows + 1]?,
            hashes: Vec::new(alloc),
            links: Vec::new(alloc),
        })
    }

    /// Whether one of the rows equals this one.
    pub(crate) fn has(&self, rows: &[IpRow], row: &IpRow) -> bool
        requires { AreLinked rows.now self.now.hashes.items self.now.links.items self.now.heads.items }
        ensures { IsTrue result ↔ Contains rows.now row.now }
    {
        seek(
            rows,
            row,
            hash(row),
            self.hashes.as_slice(),
            self.links.as_slice(),
            self.heads.as_slice(),
        )
    }

    /// Adds a row behind these rows.
    pub(crate) fn add(&mut self, rows: &[IpRow], row: &IpRow) -> Result<(), Memory>
        requires linked { AreLinked rows.now self.old.hashes.items self.old.links.items self.old.heads.items }
        requires few { length rows.now < 2 ^ 31 }
        ensures { OnOk result (AreLinked (rows.now ++ row.now ∷ []) self.new.hashes.items self.new.links.items self.new.heads.items) }
    {
        append(
            hash(row),
            &mut self.hashes,
            &mut self.links,
            self.heads.as_mut_slice(),
        )?;
        Ok(())
    }
}

/// Whether one of the rows has this hash and equals this row.
fn seek(
    rows: &[IpRow],
    row: &IpRow,
    hash: u32,
    hashes: &[u32],
    links: &[u32],
    heads: &[u32],
) -> bool
    requires linked { AreLinked rows.now hashes.now links.now heads.now }
    requires hash { hash ≡ hash_of row.now }
    ensures { IsTrue result ↔ Contains rows.now row.now }
{
    let mut link = heads[hash as usize % heads.len()];
    'chain: while link != 0 {
        let at = link as usize - 1;
        if is_it(&rows[at], hashes[at], row, hash) {
            return true;
        }
        link = links[at];
    }
    false
}

/// Whether a row of one hash is the sought one of the other hash.
fn is_it(row: &IpRow, row_hash: u32, sought: &IpRow, hash: u32) -> bool
    requires row_hash { row_hash ≡ hash_of row.now }
    requires hash { hash ≡ hash_of sought.now }
    ensures { IsTrue result ↔ (row.now ≡ sought.now) }
{
    if row_hash != hash {
        return false;
    }
    is_same(row, sought)
}

/// Puts one more place at the head of the chain of its hash.
fn append(
    hash: u32,
    hashes: &mut Vec<u32>,
    links: &mut Vec<u32>,
    heads: &mut [u32],
) -> Result<(), Memory>
    requires linked { Linked (length hashes.old.items) hashes.old.items links.old.items heads.old }
    requires links { length links.old.items ≡ length hashes.old.items }
    requires few { length hashes.old.items < 2 ^ 31 }
    ensures hashes { OnOk result (hashes.new.items ≡ hashes.old.items ++ hash ∷ []) }
    ensures links { OnOk result (length links.new.items ≡ length hashes.old.items + 1) }
    ensures linked { OnOk result (Linked (length hashes.old.items + 1) hashes.new.items links.new.items heads.new) }
{
    let chain = hash as usize % heads.len();
    let number = hashes.len() as u32 + 1;
    hashes.push(hash)?;
    links.push(heads[chain])?;
    heads[chain] = number;
    Ok(())
}

/// Whether two rows are equal.
fn is_same(one: &IpRow, other: &IpRow) -> bool
    ensures { IsTrue result ↔ (one.now ≡ other.now) }
{
    one.least == other.least && have_same_terms(one.terms.as_slice(), other.terms.as_slice())
}

/// Whether two lists of terms are equal.
fn have_same_terms(one: &[Coef], other: &[Coef]) -> bool
    ensures { IsTrue result ↔ (one.now ≡ other.now) }
{
    one == other
}
