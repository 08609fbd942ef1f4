//! The list of parts.
ghost use Rattle.std.specs.Prelude.{◌≡◌, ◌≢◌, ◌<◌, ◌≤◌, [], ◌∷◌, ◌++◌, IfOk, IfSome, IfNone, OnOk, OnErr, length, All};
ghost use Rattle.prov_arena.specs.Formulas.{formula, kids_of, FalseNode, TrueNode};
ghost use Rattle.prov_arena.specs.Graphs.{at, interned, place_of, IsAbsent, IsGraph};

use crate::chains::{Node, append, seek, widen};
use crate::hash::hash;
use crate::{ArenaMemory, Part};
use bumpalo::Bump;
use std::alloc::Global;
use std::marker::Model;

// The chains that a list begins with.
const FIRST_CHAINS: usize = 1024;

/// A list of distinct parts, numbered from 0, in which each part names only parts before it. False is
/// at 0 and True at 1. The slices of the parts lie in the arena, which stands outside and is given back
/// with all of them at once. A part is found again by its hash, in constant time on average, and costs
/// 48 bytes beside its slice.
#[derive(Drop)]
pub struct Prov<'a> {
    alloc: Global,
    arena: &'a Bump,
    nodes: Vec<Node<'a>>,
    heads: Vec<u32>,
}

impl<'a> Model for Prov<'a> {
    ghost use Rattle.std.specs.Prelude.{List};
    ghost use Rattle.prov_arena.specs.Formulas.{Formula};

    ghost Value = { List Formula };

    ghost use Rattle.prov_arena.specs.Chains.{formulas, hashes, nexts, Kept};

    ghost view = { λ p. formulas p.nodes.items };

    ghost invariant = { λ p. Kept (formulas p.nodes.items) (hashes p.nodes.items) (nexts p.nodes.items) p.heads.items };
}

impl<'a> Prov<'a> {
    /// The list of False and True. `Err` is want of memory.
    pub fn start(alloc: Global, arena: &'a Bump) -> Result<Prov<'a>, ArenaMemory>
        ensures { IfOk result (λ prov. prov ≡ FalseNode ∷ TrueNode ∷ []) }
    {
        let mut nodes = Vec::new(alloc);
        let mut heads = vec![in alloc; 0u32; FIRST_CHAINS]?;
        append(&mut nodes, &mut heads, Part::False, hash(Part::False))?;
        append(&mut nodes, &mut heads, Part::True, hash(Part::True))?;
        Ok(Prov {
            alloc,
            arena,
            nodes,
            heads,
        })
    }

    /// The place of the equal part where it stands in the list, which then stays as it is, else the place
    /// at which it is appended. The part names only parts of the list, of which there are at most
    /// 20,000,000. `Err` is want of memory, and the list and its chains are as before.
    pub fn intern(&mut self, part: Part<'_>) -> Result<u32, ArenaMemory>
        requires kids { All (λ kid. kid < length self.old) (kids_of (formula part)) }
        requires room { length self.old < 20000001 }
        ensures place { IfOk result (λ id. (id < length self.new) × (at self.new id ≡ formula part.entry)) }
        ensures known { (i : _) → i < length self.old → at self.old i ≡ formula part.entry → OnOk result (self.new ≡ self.old) }
        ensures new { IsAbsent self.old (formula part.entry) → OnOk result (self.new ≡ self.old ++ formula part.entry ∷ []) }

        // The same in one equation.
        ensures interned { IfOk result (λ id. (id, self.new) ≡ interned self.old (formula part.entry)) }
        ensures err { OnErr result (self.new ≡ self.old) }
    {
        let hash = hash(part);
        let link = seek(self.nodes.as_slice(), self.heads.as_slice(), part, hash);
        if link != 0 {
            return Ok(link - 1);
        }
        let kept = keep(self.arena, part)?;
        let id = append(&mut self.nodes, &mut self.heads, kept, hash)?;
        widen(self.alloc, &mut self.nodes, &mut self.heads);
        Ok(id)
    }

    /// The place of the equal part, and `None` exactly where there is none.
    pub fn find(&self, part: Part<'_>) -> Option<u32>
        requires { All (λ kid. kid < length self.now) (kids_of (formula part)) }
        ensures found { IfSome result (λ id. (id < length self.now) × (at self.now id ≡ formula part.entry)) }
        ensures none { IfNone result (IsAbsent self.now (formula part.entry)) }

        // The same in one equation.
        ensures place { result ≡ place_of self.now (formula part.entry) }
    {
        let link = seek(
            self.nodes.as_slice(),
            self.heads.as_slice(),
            part,
            hash(part),
        );
        if link == 0 { None } else { Some(link - 1) }
    }

    /// The part at a place of the list.
    pub fn node(&self, id: u32) -> Part<'a>
        requires { id < length self.now }
        ensures part { formula result ≡ at self.now id }
        ensures kids { All (λ kid. kid < id) (kids_of (formula result)) }
    {
        self.nodes[id as usize].part
    }

    /// How many parts there are, at most 20,000,001. They are distinct, and each names only parts before it.
    pub fn len(&self) -> u32
        ensures len { result ≡ length self.now }
        ensures graph { IsGraph self.now }
    {
        // What holds of the list is known where a field is read.
        let _heads = &self.heads;
        self.nodes.len() as u32
    }
}

/// The part with its slice in the arena.
fn keep<'a>(arena: &'a Bump, part: Part<'_>) -> Result<Part<'a>, ArenaMemory>
    ensures { IfOk result (λ kept. formula kept ≡ formula part.entry) }
{
    match part {
        Part::False => Ok(Part::False),
        Part::True => Ok(Part::True),
        Part::Pres(column) => Ok(Part::Pres(column)),
        Part::Cell(column) => Ok(Part::Cell(column)),
        Part::Pos(number) => Ok(Part::Pos(number)),
        Part::Not(truth) => Ok(Part::Not(truth)),
        Part::And(kids) => Ok(Part::And(arena.try_alloc_slice_copy(kids)?)),
        Part::Or(kids) => Ok(Part::Or(arena.try_alloc_slice_copy(kids)?)),
        Part::Lin(constant, terms) => Ok(Part::Lin(constant, arena.try_alloc_slice_copy(terms)?)),
        Part::Guard(truth, number) => Ok(Part::Guard(truth, number)),
        Part::Abs(number) => Ok(Part::Abs(number)),
        Part::Tot(number) => Ok(Part::Tot(number)),
        Part::Min(pairs) => Ok(Part::Min(arena.try_alloc_slice_copy(pairs)?)),
    }
}
