//! Chains of equal hash that run through the nodes. A link is 0 at the end of a chain, and else one more than a place.
ghost use Rattle.std.specs.Prelude.{◌≡◌, ◌↔◌, ◌≤◌, ◌<◌, ◌+◌, ◌^◌, ◌++◌, ◌∷◌, [], IsTrue, IfOk, OnErr, length, replicate};
ghost use Rattle.prov_arena.specs.Formulas.{formula};
ghost use Rattle.prov_arena.specs.Hashes.{hash_of};
ghost use Rattle.prov_arena.specs.Chains.{formulas, hashes, nexts, Kept, Linked, Sought};

use crate::words::same;
use crate::{ArenaMemory, Part};
use std::alloc::Global;

/// A part with its hash and the link to the place before it in its chain.
#[derive(Clone, Copy)]
pub(crate) struct Node<'a> {
    pub(crate) part: Part<'a>,
    pub(crate) hash: u32,
    pub(crate) next: u32,
}

// A list has up to 20,000,001 of them.
const _: () = prove!(size_of::<Node<'_>>() == 40);

impl Node<'_> {
    /// Whether the node's part is the one with this hash.
    fn holds(&self, part: Part<'_>, hash: u32) -> bool
        requires own { self.now.hash ≡ hash_of (formula self.now.part) }
        requires sought { hash ≡ hash_of (formula part) }
        ensures { IsTrue result ↔ (formula self.now.part ≡ formula part.entry) }
    {
        self.hash == hash && same(self.part, part)
    }
}

/// The link to the place of a part.
pub(crate) fn seek(nodes: &[Node<'_>], heads: &[u32], part: Part<'_>, hash: u32) -> u32
    requires kept { Kept (formulas nodes.now) (hashes nodes.now) (nexts nodes.now) heads.now }
    requires hash { hash ≡ hash_of (formula part) }
    ensures { Sought (formulas nodes.now) (formula part.entry) result }
{
    let mut link = heads[hash as usize % heads.len()];
    'chain: while link != 0 {
        let node = &nodes[link as usize - 1];
        if node.holds(part, hash) {
            return link;
        }
        link = node.next;
    }
    0
}

/// Appends a node at the head of its chain, and gives its place. Where it is refused, nothing changes.
pub(crate) fn append<'a>(
    nodes: &mut Vec<Node<'a>>,
    heads: &mut Vec<u32>,
    part: Part<'a>,
    hash: u32,
) -> Result<u32, ArenaMemory>
    requires linked { Linked (length nodes.old.items) (hashes nodes.old.items) (nexts nodes.old.items) heads.old.items }
    requires few { length nodes.old.items < 2 ^ 31 }
    ensures place { IfOk result (λ id. id ≡ length nodes.old.items) }
    ensures formulas { IfOk result (λ _. formulas nodes.new.items ≡ formulas nodes.old.items ++ formula part.entry ∷ []) }
    ensures hashes { IfOk result (λ _. hashes nodes.new.items ≡ hashes nodes.old.items ++ hash ∷ []) }
    ensures linked { IfOk result (λ _. Linked (length nodes.new.items) (hashes nodes.new.items) (nexts nodes.new.items) heads.new.items) }
    ensures err_nodes { OnErr result (nodes.new.items ≡ nodes.old.items) }
    ensures err_heads { OnErr result (heads.new ≡ heads.old) }
{
    let chain = hash as usize % heads.len();
    let id = nodes.len() as u32;
    let next = heads[chain];
    nodes.push(Node { part, hash, next })?;
    heads[chain] = id + 1;
    Ok(id)
}

/// Links all nodes into chains that are empty yet.
fn link_all(nodes: &mut [Node<'_>], heads: &mut [u32])
    requires empty { heads.old ≡ replicate (length heads.old) 0 }
    requires some { 0 < length heads.old }
    requires size { length heads.old < 2 ^ 32 }
    requires few { length nodes.old < 2 ^ 31 }
    ensures formulas { formulas nodes.new ≡ formulas nodes.old }
    ensures hashes { hashes nodes.new ≡ hashes nodes.old }
    ensures linked { Linked (length nodes.new) (hashes nodes.new) (nexts nodes.new) heads.new }
{
    'nodes: for i in 0..nodes.len() {
        let chain = nodes[i].hash as usize % heads.len();
        nodes[i].next = heads[chain];
        heads[chain] = i as u32 + 1;
    }
}

/// Doubles the number of chains where there are more nodes than chains. Where memory is wanting they stay, and
/// only grow longer.
pub(crate) fn widen(alloc: Global, nodes: &mut Vec<Node<'_>>, heads: &mut Vec<u32>)
    requires linked { Linked (length nodes.old.items) (hashes nodes.old.items) (nexts nodes.old.items) heads.old.items }
    requires few { length nodes.old.items < 2 ^ 31 }
    ensures formulas { formulas nodes.new.items ≡ formulas nodes.old.items }
    ensures hashes { hashes nodes.new.items ≡ hashes nodes.old.items }
    ensures linked { Linked (length nodes.new.items) (hashes nodes.new.items) (nexts nodes.new.items) heads.new.items }
{
    if nodes.len() <= heads.len() {
        return;
    }
    match vec![in alloc; 0u32; 2 * heads.len()] {
        Ok(mut wider) => {
            link_all(nodes.as_mut_slice(), wider.as_mut_slice());
            *heads = wider;
        }
        Err(_) => {}
    }
}
