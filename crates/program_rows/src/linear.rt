//! What is asked of the roots, as forms.
ghost use Rattle.std.specs.Prelude.{◌≡◌, ◌+◌, ◌<◌, ◌≤◌, ◌-ℤ◌, ◌∷◌, [], pos, negsuc, cond, flat_map, length, unsigned_abs, All, IfOk, OnOk};
ghost use Rattle.prov_fold.specs.Graphs.{HasTruth};
ghost use Rattle.bool_encode.specs.Forms.{form};
ghost use Rattle.bool_encode.specs.Tables.{times as times_of};
ghost use Rattle.root_encode.specs.Roots.{root_forms, sum_form as sum_of};
ghost use Rattle.program_rows.specs.Fair.{told, told_all, Asks, IsAsked, IsFair};
ghost use Rattle.program_rows.specs.Goals.{goal_forms};

use base_kit::{List, Memory};
use bool_encode::{Piece, times};
use prov_fold::{Fold, Part};
use std::alloc::Global;

/// No memory holds so many kids.
const MOST_KIDS: usize = 1 << 40;

/// A constant and factors of nodes, which are to be 0 or above together.
#[derive(Debug, Drop)]
pub(crate) struct LinearForm {
    pub(crate) constant: i64,
    pub(crate) pieces: List<Piece>,
}

/// What is asked of all roots, root by root.
pub(crate) fn forms_of(
    alloc: Global,
    fold: &Fold<'_>,
    roots: &[u32],
) -> Result<List<LinearForm>, Memory>
    requires { All (HasTruth fold.now) roots.now }
    ensures forms { IfOk result (λ forms. told_all forms ≡ goal_forms fold.now roots.now) }
    ensures fair { IfOk result (λ forms. All (IsFair fold.now) (told_all forms)) }
{
    let mut forms = List::new(alloc);
    for root in roots {
        ask(alloc, fold, &mut forms, true, *root)?;
    }
    Ok(forms)
}

/// Appends the forms that ask that a truth holds, or that it does not.
#[cycle(ask)]
fn ask(
    alloc: Global,
    fold: &Fold<'_>,
    forms: &mut List<LinearForm>,
    holds: bool,
    id: u32,
) -> Result<(), Memory>
    requires { HasTruth fold.now id }
    ensures { OnOk result (Asks fold.now (root_forms fold.now holds id) forms.old forms.new) }
{
    let _range = fold.range(id);
    match fold.prov().node(id) {
        Part::Not(truth) => ask(alloc, fold, forms, !holds, truth),
        Part::And(kids) => {
            if holds {
                ask_each(alloc, fold, forms, holds, kids, id)
            } else {
                ask_sum(alloc, fold, forms, all_but_one(kids), -1, kids)
            }
        }
        Part::Or(kids) => {
            if holds {
                ask_sum(alloc, fold, forms, -1, 1, kids)
            } else {
                ask_each(alloc, fold, forms, holds, kids, id)
            }
        }
        Part::Pos(number) => {
            if holds {
                ask_term(alloc, fold, forms, 0, 1, number)
            } else {
                ask_term(alloc, fold, forms, -1, -1, number)
            }
        }
        Part::Pres(_) => {
            if holds {
                ask_term(alloc, fold, forms, -1, 1, id)
            } else {
                ask_term(alloc, fold, forms, 0, -1, id)
            }
        }
        Part::False => ask_known(alloc, fold, forms, !holds),
        Part::True => ask_known(alloc, fold, forms, holds),
        _ => Ok(()),
    }
}

/// The same of truths in turn, which stand before a place.
#[cycle(ask)]
fn ask_each(
    alloc: Global,
    fold: &Fold<'_>,
    forms: &mut List<LinearForm>,
    holds: bool,
    kids: &[u32],
    id: u32,
) -> Result<(), Memory>
    requires below { All (λ kid. kid < id) kids.now }
    requires truths { All (λ kid. HasTruth fold.now kid) kids.now }
    ensures { OnOk result (Asks fold.now (flat_map (root_forms fold.now holds) kids.now) forms.old forms.new) }
{
    for kid in kids {
        ask(alloc, fold, forms, holds, *kid)?;
    }
    Ok(())
}

/// How many there are, less one.
fn all_but_one(kids: &[u32]) -> i64
    ensures value { result ≡ pos (length kids.now) -ℤ pos 1 }
    ensures small { unsigned_abs result ≤ length kids.now + 1 }
{
    kids.len() as i64 - 1
}

/// Appends the form of a constant and the sum of truths, with a sign.
fn ask_sum(
    alloc: Global,
    fold: &Fold<'_>,
    forms: &mut List<LinearForm>,
    constant: i64,
    sign: i64,
    kids: &[u32],
) -> Result<(), Memory>
    requires kids { All (λ kid. HasTruth fold.now kid) kids.now }
    requires sign { unsigned_abs sign ≤ 1 }
    requires constant { unsigned_abs constant ≤ length kids.now + 1 }
    ensures { OnOk result (Asks fold.now (sum_of constant sign kids.now ∷ []) forms.old forms.new) }
{
    let form = sum_form(alloc, fold, constant, sign, kids)?;
    Ok(forms.push(form)?)
}

/// Appends the form of a constant and one node, with a sign.
fn ask_term(
    alloc: Global,
    fold: &Fold<'_>,
    forms: &mut List<LinearForm>,
    constant: i64,
    sign: i64,
    id: u32,
) -> Result<(), Memory>
    requires asked { IsAsked fold.now id }
    requires sign { unsigned_abs sign ≤ 1 }
    requires constant { unsigned_abs constant ≤ 1 }
    ensures { OnOk result (Asks fold.now (form constant (times_of sign id ∷ []) ∷ []) forms.old forms.new) }
{
    let form = term_form(alloc, fold, constant, sign, id)?;
    Ok(forms.push(form)?)
}

/// Appends the form that never holds, where what is asked is known not to be so.
fn ask_known(
    alloc: Global,
    fold: &Fold<'_>,
    forms: &mut List<LinearForm>,
    so: bool,
) -> Result<(), Memory>
    ensures { OnOk result (Asks fold.now (cond so [] (form (negsuc 0) [] ∷ [])) forms.old forms.new) }
{
    if so {
        return Ok(());
    }
    Ok(forms.push(empty_form(alloc, fold, -1))?)
}

/// The form of a constant and the sum of truths, with a sign.
fn sum_form(
    alloc: Global,
    fold: &Fold<'_>,
    constant: i64,
    sign: i64,
    kids: &[u32],
) -> Result<LinearForm, Memory>
    requires kids { All (λ kid. HasTruth fold.now kid) kids.now }
    requires sign { unsigned_abs sign ≤ 1 }
    requires constant { unsigned_abs constant ≤ length kids.now + 1 }
    ensures form { IfOk result (λ f. told f ≡ sum_of constant sign kids.now) }
    ensures fair { IfOk result (λ f. IsFair fold.now (told f)) }
{
    if kids.len() > MOST_KIDS {
        return Err(Memory);
    }
    let mut pieces = List::new(alloc);
    for kid in kids {
        pieces.push(times(sign, *kid))?;
    }
    Ok(LinearForm { constant, pieces })
}

/// The form of a constant and one node, with a sign.
pub(crate) fn term_form(
    alloc: Global,
    fold: &Fold<'_>,
    constant: i64,
    sign: i64,
    id: u32,
) -> Result<LinearForm, Memory>
    requires asked { IsAsked fold.now id }
    requires sign { unsigned_abs sign ≤ 1 }
    requires constant { unsigned_abs constant ≤ 1 }
    ensures form { IfOk result (λ f. told f ≡ form constant (times_of sign id ∷ [])) }
    ensures fair { IfOk result (λ f. IsFair fold.now (told f)) }
{
    let _range = fold.range(id);
    let mut pieces = List::new(alloc);
    pieces.push(times(sign, id))?;
    Ok(LinearForm { constant, pieces })
}

/// The form of a constant alone.
pub(crate) fn empty_form(alloc: Global, fold: &Fold<'_>, constant: i64) -> LinearForm
    requires { unsigned_abs constant ≤ 1 }
    ensures form { told result ≡ form constant [] }
    ensures fair { IsFair fold.now (told result) }
{
    let _count = fold.prov().len();
    LinearForm {
        constant,
        pieces: List::new(alloc),
    }
}
