//! Parts as the words by which they are compared and hashed.
ghost use Rattle.std.specs.Prelude.{◌≡◌, ◌↔◌, IsTrue};
ghost use Rattle.prov_arena.specs.Formulas.{formula};
ghost use Rattle.prov_arena.specs.Words.{words_of, short_of, spelled, HasSameHead, HasSameLists};

use crate::{Pair, Part, Term};

/// All that a part says. `kind` is the number of its variant, and what a variant lacks is 0 or empty.
#[derive(Clone, Copy)]
pub(crate) struct Words<'p> {
    pub(crate) kind: u32,
    pub(crate) number: i64,
    pub(crate) left: u32,
    pub(crate) right: u32,
    pub(crate) kids: &'p [u32],
    pub(crate) terms: &'p [Term],
    pub(crate) pairs: &'p [Pair],
}

/// The words of a kind that names up to two nodes or columns.
fn short<'p>(kind: u32, left: u32, right: u32) -> Words<'p>
    ensures { spelled result ≡ short_of kind left right }
{
    Words {
        kind,
        number: 0,
        left,
        right,
        kids: &[],
        terms: &[],
        pairs: &[],
    }
}

/// The words of a part.
pub(crate) fn spell(part: Part<'_>) -> Words<'_>
    ensures { spelled result ≡ words_of (formula part.entry) }
{
    match part {
        Part::False => short(0, 0, 0),
        Part::True => short(1, 0, 0),
        Part::Pres(column) => short(2, column, 0),
        Part::Cell(column) => short(3, column, 0),
        Part::Pos(number) => short(4, number, 0),
        Part::Not(truth) => short(5, truth, 0),
        Part::And(kids) => Words {
            kids,
            ..short(6, 0, 0)
        },
        Part::Or(kids) => Words {
            kids,
            ..short(7, 0, 0)
        },
        Part::Lin(number, terms) => Words {
            number,
            terms,
            ..short(8, 0, 0)
        },
        Part::Guard(truth, number) => short(9, truth, number),
        Part::Abs(number) => short(10, number, 0),
        Part::Tot(number) => short(11, number, 0),
        Part::Min(pairs) => Words {
            pairs,
            ..short(12, 0, 0)
        },
    }
}

/// Whether two parts say the same.
#[tactic(auto, using(crate::proofs::Spellings::same_formula))]
pub(crate) fn same(a: Part<'_>, b: Part<'_>) -> bool
    ensures { IsTrue result ↔ (formula a.entry ≡ formula b.entry) }
{
    let a = spell(a);
    let b = spell(b);
    same_heads(a, b) && same_lists(a, b)
}

fn same_heads(a: Words<'_>, b: Words<'_>) -> bool
    ensures { IsTrue result ↔ HasSameHead (spelled a.entry) (spelled b.entry) }
{
    a.kind == b.kind && a.number == b.number && a.left == b.left && a.right == b.right
}

fn same_lists(a: Words<'_>, b: Words<'_>) -> bool
    ensures { IsTrue result ↔ HasSameLists (spelled a.entry) (spelled b.entry) }
{
    same_kids(a.kids, b.kids) && same_terms(a.terms, b.terms) && same_pairs(a.pairs, b.pairs)
}

fn same_kids(a: &[u32], b: &[u32]) -> bool
    ensures { IsTrue result ↔ (a.now ≡ b.now) }
{
    a == b
}

fn same_terms(a: &[Term], b: &[Term]) -> bool
    ensures { IsTrue result ↔ (a.now ≡ b.now) }
{
    a == b
}

fn same_pairs(a: &[Pair], b: &[Pair]) -> bool
    ensures { IsTrue result ↔ (a.now ≡ b.now) }
{
    a == b
}
