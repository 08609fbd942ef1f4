//! Rows found again by their keys. Rows whose keys have equal hashes hang together in chains, so that a key is compared
//! with few others. A link is 0 at the end of a chain, and else the number of a row, from 1.
ghost use Rattle.std.specs.Prelude.{◌≡◌, ◌↔◌, ◌<◌, ◌+◌, ◌^◌, ◌++◌, ◌∷◌, [], length, IfOk, OnOk, IsTrue, MatchOption, option_copied};
ghost use Rattle.tables_csv.specs.Chains.{AreKeysOf, AreLinked, Linked, Sought};
ghost use Rattle.tables_csv.specs.Hashes.{hash_of};
ghost use Rattle.tiql_query.specs.Keys.{key_of, HasKeyOf, HasNewKey};

use crate::hash::hash;
use base_kit::{Memory, Row, Value};
use std::alloc::Global;
use std::cmp::Ordering;

// The most chains: more would not shorten them, since a table has at most 200,000 rows.
const MOST_CHAINS: usize = 262_144;

/// The chains of the rows of a table.
#[derive(Drop)]
pub(crate) struct Keys {
    heads: Vec<u32>,
    hashes: Vec<u32>,
    links: Vec<u32>,
}

impl Keys {
    /// The chains of no rows yet, for a table of about so many rows. Without a key there are none.
    pub(crate) fn new(alloc: Global, key: &[u32], rows: usize) -> Result<Keys, Memory>
        ensures { IfOk result (λ keys. AreKeysOf key.now [] keys) }
    {
        let chains = if key.is_empty() {
            0
        } else {
            rows.min(MOST_CHAINS - 1) + 1
        };
        Ok(Keys {
            heads: vec![in alloc; 0u32; chains]?,
            hashes: Vec::new(alloc),
            links: Vec::new(alloc),
        })
    }

    /// Adds a row behind those that are there, unless it has the key of one of them: then the number of that row, from 1.
    pub(crate) fn enter(
        &mut self,
        key: &[u32],
        rows: &[Row],
        row: &Row,
    ) -> Result<Option<u32>, Memory>
        requires keys { AreKeysOf key.now rows.now self.old }
        requires few { length rows.now < 2 ^ 31 }
        ensures new { IfOk result (λ found. MatchOption found (HasNewKey key.now rows.now row.now × AreKeysOf key.now (rows.now ++ row.now ∷ []) self.new) (λ earlier. HasKeyOf key.now rows.now row.now earlier)) }
    {
        if key.is_empty() {
            return Ok(None);
        }
        let hash = hash(key, row);
        let earlier = seek(
            key,
            rows,
            row,
            hash,
            self.hashes.as_slice(),
            self.links.as_slice(),
            self.heads.as_slice(),
        );
        if earlier != 0 {
            return Ok(Some(earlier));
        }
        append(
            hash,
            &mut self.hashes,
            &mut self.links,
            self.heads.as_mut_slice(),
        )?;
        Ok(None)
    }
}

// The number of the row that has this row's key, or 0 where none has it.
fn seek(
    key: &[u32],
    rows: &[Row],
    row: &Row,
    hash: u32,
    hashes: &[u32],
    links: &[u32],
    heads: &[u32],
) -> u32
    requires linked { AreLinked key.now rows.now hashes.now links.now heads.now }
    requires hash { hash ≡ hash_of (key_of key.now row.now) }
    ensures { Sought key.now rows.now (key_of key.now row.now) result }
{
    let mut link = heads[hash as usize % heads.len()];
    'chain: while link != 0 {
        let at = link as usize - 1;
        if hashes[at] == hash && has_same_key(key, &rows[at], row) {
            return link;
        }
        link = links[at];
    }
    0
}

// Puts one more row at the head of the chain of its hash.
fn append(
    hash: u32,
    hashes: &mut Vec<u32>,
    links: &mut Vec<u32>,
    heads: &mut [u32],
) -> Result<(), Memory>
    requires linked { Linked (length hashes.old.items) hashes.old.items links.old.items heads.old }
    requires links { length links.old.items ≡ length hashes.old.items }
    requires few { length hashes.old.items < 2 ^ 31 }
    ensures hashes { OnOk result (hashes.new.items ≡ hashes.old.items ++ hash ∷ []) }
    ensures links { OnOk result (length links.new.items ≡ length hashes.old.items + 1) }
    ensures linked { OnOk result (Linked (length hashes.old.items + 1) hashes.new.items links.new.items heads.new) }
{
    let chain = hash as usize % heads.len();
    let number = hashes.len() as u32 + 1;
    hashes.push(hash)?;
    links.push(heads[chain])?;
    heads[chain] = number;
    Ok(())
}

// Whether two rows have equal values in the columns of the key.
fn has_same_key(key: &[u32], one: &Row, other: &Row) -> bool
    ensures { IsTrue result ↔ (key_of key.now one.now ≡ key_of key.now other.now) }
{
    for column in key {
        if !is_same(one.get(*column as usize), other.get(*column as usize)) {
            return false;
        }
    }
    true
}

// Whether both values are there and are equal, or neither is.
fn is_same(one: Option<&Value>, other: Option<&Value>) -> bool
    ensures { IsTrue result ↔ (option_copied one.entry ≡ option_copied other.entry) }
{
    match (one, other) {
        (Some(one), Some(other)) => one.order(other) == Ordering::Equal,
        (None, None) => true,
        (Some(_), None) => false,
        (None, Some(_)) => false,
    }
}
