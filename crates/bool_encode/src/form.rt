//! Linear forms over nodes and selectors, and the rows that they give.
ghost use Rattle.std.specs.Prelude.{◌≡◌, ◌+◌, ◌*◌, ◌<◌, ◌≤◌, ◌^◌, ◌*ℤ◌, ◌+ℤ◌, neg_ℤ, ◌++◌, ◌∷◌, [], pos, unsigned_abs, map, length, All, IfOk, OnOk};
ghost use Rattle.prov_arena.specs.declared.part.Term.{Term as Summand};
ghost use Rattle.prov_arena.specs.Formulas.{formula};
ghost use Rattle.prov_fold.specs.Graphs.{node, size};
ghost use Rattle.prov_fold.specs.Sums.{added_by, total_by};
ghost use Rattle.bool_encode.specs.Forms.{form};
ghost use Rattle.bool_encode.specs.Stands.{IsMap};
ghost use Rattle.bool_encode.specs.Columns.{IsOnMap, coef, column_at, columns_by, columns_of, constant_by, constant_of};
ghost use Rattle.bool_encode.specs.Rows.{IsJoinedOn, IsKey, IsRowOf, weight};
ghost use Rattle.bool_encode.specs.Scraps.{told, scaled, spread};
ghost use Rattle.bool_encode.specs.Tables.{times as times_of};

use crate::scrap::{Scrap, joined};
use crate::stand::column;
use crate::{ColumnMap, Stand};
use base_kit::Memory;
use ip_rows::IpRow;
use prov_fold::{Fold, Part, Term};
use std::alloc::Global;

/// What a form names: a node of the list of formulas, or a selector of a Min. Both are counted from 0
/// (docs/ENCODING.md).
#[derive(Clone, Copy, Debug, PartialEq, Eq)]
pub enum Key {
    /// The truth or the number at this place.
    Node(u32),
    /// Whether the Min at this place takes its number from this pair.
    Selector { node: u32, pair: u32 },
}

/// A key with the factor that it has in a form (docs/ENCODING.md).
#[derive(Clone, Copy, Debug, PartialEq, Eq)]
pub struct Piece {
    pub factor: i64,
    pub key: Key,
}

/// A factor times a node.
pub fn times(factor: i64, id: u32) -> Piece
    ensures piece { result ≡ times_of factor id }
{
    Piece {
        factor,
        key: Key::Node(id),
    }
}

/// The row that says that a constant plus pieces is 0 or above. Each node is put as columns, what is constant goes to the
/// right, and like columns are joined. All numbers of the form together are below 2^63 in size (docs/ENCODING.md).
pub fn form_row(
    alloc: Global,
    fold: &Fold<'_>,
    map: &ColumnMap,
    constant: i64,
    pieces: &[Piece],
) -> Result<IpRow, Memory>
    requires map { IsMap map.now.stands }
    requires there { All (λ (p : _). IsKey fold.now p.key) pieces.now }
    requires named { All (λ (p : _). IsOnMap fold.now map.now.stands p.key) pieces.now }
    requires light { weight fold.now map.now.stands constant pieces.now < 2 ^ 63 }
    ensures row { IfOk result (λ row. IsRowOf fold.now map.now.stands (form constant pieces.now) row) }
{
    joined_row(alloc, fold, map, constant, pieces)
}

/// The same where like columns may cancel: once they are joined, no factor is left at a column that is not on the map. A node
/// without a column of its own may so stand in the form, as `t` and `Not(t)` together do. All numbers of the form together are
/// below 2^63 in size. `Err` is want of memory (docs/ENCODING.md).
pub fn joined_row(
    alloc: Global,
    fold: &Fold<'_>,
    map: &ColumnMap,
    constant: i64,
    pieces: &[Piece],
) -> Result<IpRow, Memory>
    requires map { IsMap map.now.stands }
    requires there { All (λ (p : _). IsKey fold.now p.key) pieces.now }
    requires named { IsJoinedOn fold.now map.now.stands pieces.now }
    requires light { weight fold.now map.now.stands constant pieces.now < 2 ^ 63 }
    ensures row { IfOk result (λ row. IsRowOf fold.now map.now.stands (form constant pieces.now) row) }
{
    let scraps = scraps(alloc, fold, map.stands.as_slice(), pieces)?;
    Ok(IpRow {
        terms: joined(alloc, scraps)?,
        least: least(fold, constant, pieces),
    })
}

/// All terms of the pieces.
fn scraps(
    alloc: Global,
    fold: &Fold<'_>,
    stands: &[Stand],
    pieces: &[Piece],
) -> Result<Vec<Scrap>, Memory>
    requires map { IsMap stands.now }
    requires there { All (λ (p : _). IsKey fold.now p.key) pieces.now }
    ensures { IfOk result (λ scraps. map (λ (s : _). told s) scraps.items ≡ spread fold.now stands.now pieces.now) }
{
    let mut scraps = Vec::new(alloc);
    for piece in pieces {
        scatter(fold, stands, &mut scraps, *piece)?;
    }
    Ok(scraps)
}

/// Appends the terms of a piece.
#[tactic(auto, unfolding(crate::specs::Columns::columns_of))]
fn scatter(
    fold: &Fold<'_>,
    stands: &[Stand],
    scraps: &mut Vec<Scrap>,
    piece: Piece,
) -> Result<(), Memory>
    requires map { IsMap stands.now }
    requires there { IsKey fold.now piece.key }
    ensures { OnOk result (map (λ (s : _). told s) scraps.new.items ≡ map (λ (s : _). told s) scraps.old.items ++ scaled piece.factor (columns_of fold.now stands.now piece.key).terms) }
{
    match piece.key {
        Key::Node(id) => scatter_node(fold, stands, scraps, piece.factor, id),
        Key::Selector { node, pair } => add(
            scraps,
            piece.factor,
            1,
            column(stands, Stand::Selector { node, pair }),
        ),
    }
}

/// Appends the terms of a node, times a factor.
fn scatter_node(
    fold: &Fold<'_>,
    stands: &[Stand],
    scraps: &mut Vec<Scrap>,
    factor: i64,
    id: u32,
) -> Result<(), Memory>
    requires map { IsMap stands.now }
    requires there { id < size fold.now }
    ensures { OnOk result (map (λ (s : _). told s) scraps.new.items ≡ map (λ (s : _). told s) scraps.old.items ++ scaled factor (columns_by fold.now stands.now id (node fold.now id)).terms) }
{
    match fold.prov().node(id) {
        Part::False => Ok(()),
        Part::True => Ok(()),
        Part::Not(truth) => add(scraps, factor, -1, node_column(fold, stands, truth)),
        Part::Lin(_, terms) => add_terms(fold, stands, scraps, factor, terms),
        _ => add(scraps, factor, 1, node_column(fold, stands, id)),
    }
}

/// Appends terms of a number, times a factor.
fn add_terms(
    fold: &Fold<'_>,
    stands: &[Stand],
    scraps: &mut Vec<Scrap>,
    factor: i64,
    terms: &[Term],
) -> Result<(), Memory>
    requires map { IsMap stands.now }
    requires there { All (λ (t : _). t.node < size fold.now) terms.now }
    ensures { OnOk result (map (λ (s : _). told s) scraps.new.items ≡ map (λ (s : _). told s) scraps.old.items ++ map (λ (t : Summand). coef (factor *ℤ t.factor) (column_at fold.now stands.now t.node)) terms.now) }
{
    for term in terms {
        add(
            scraps,
            factor,
            term.factor,
            node_column(fold, stands, term.node),
        )?;
    }
    Ok(())
}

/// Appends a term whose factor is a product.
fn add(scraps: &mut Vec<Scrap>, factor: i64, times: i64, column: u32) -> Result<(), Memory>
    ensures { OnOk result (map (λ (s : _). told s) scraps.new.items ≡ map (λ (s : _). told s) scraps.old.items ++ coef (factor *ℤ times) column ∷ []) }
{
    let scrap = Scrap {
        column,
        factor: product(factor, times),
    };
    Ok(scraps.push(scrap)?)
}

/// The column of a node that is no constant, no Not and no number.
fn node_column(fold: &Fold<'_>, stands: &[Stand], id: u32) -> u32
    requires map { IsMap stands.now }
    requires there { id < size fold.now }
    ensures { result ≡ column_at fold.now stands.now id }
{
    match fold.prov().node(id) {
        Part::Pres(column_of) => column(stands, Stand::World(column_of)),
        Part::Cell(column_of) => column(stands, Stand::World(column_of)),
        _ => column(stands, Stand::Node(id)),
    }
}

/// What the row of a form asks: the constants, on the right.
fn least(fold: &Fold<'_>, constant: i64, pieces: &[Piece]) -> i64
    requires there { All (λ (p : _). IsKey fold.now p.key) pieces.now }
    requires light { unsigned_abs constant + added_by (λ (p : _). unsigned_abs p.factor * unsigned_abs (constant_of fold.now p.key)) pieces.now < 2 ^ 63 }
    ensures { result ≡ neg_ℤ (constant +ℤ total_by (λ (p : _). p.factor *ℤ constant_of fold.now p.key) pieces.now) }
{
    let mut total = i128::from(constant);
    for piece in pieces {
        total += constant_part(fold, piece);
    }
    (-total) as i64
}

/// What a piece adds to the constants.
fn constant_part(fold: &Fold<'_>, piece: &Piece) -> i128
    requires { IsKey fold.now piece.now.key }
    ensures { result ≡ piece.now.factor *ℤ constant_of fold.now piece.now.key }
{
    i128::from(piece.factor) * i128::from(constant_in(fold, piece.key))
}

/// The constant of a key as columns.
fn constant_in(fold: &Fold<'_>, key: Key) -> i64
    requires { IsKey fold.now key }
    ensures { result ≡ constant_of fold.now key }
{
    match key {
        Key::Node(id) => node_constant(fold.prov().node(id)),
        Key::Selector { .. } => 0,
    }
}

fn node_constant(part: Part<'_>) -> i64
    ensures { result ≡ constant_by (formula part.entry) }
{
    match part {
        Part::True => 1,
        Part::Not(_) => 1,
        Part::Lin(constant, _) => constant,
        _ => 0,
    }
}

/// The product of two numbers.
fn product(factor: i64, number: i64) -> i128
    ensures { result ≡ factor *ℤ number }
{
    i128::from(factor) * i128::from(number)
}
