//! What is minimized.
ghost use Rattle.std.specs.Prelude.{◌≡◌, IfOk, IfSome};
ghost use Rattle.prov_fold.specs.Graphs.{HasNumber};
ghost use Rattle.program_rows.specs.Fair.{told, IsFair};
ghost use Rattle.program_rows.specs.Goals.{aim_form as aim_of, sign_of};

use crate::linear::{LinearForm, empty_form, term_form};
use base_kit::Memory;
use prov_fold::Fold;
use std::alloc::Global;

/// The number that is to be small, or great (docs/ENCODING.md).
#[derive(Clone, Copy, Debug)]
pub struct Goal {
    /// Its place in the list of formulas, from 0.
    pub number: u32,
    /// Whether it is to be great.
    pub maximize: bool,
}

/// What is minimized, as a form.
pub(crate) fn aim_form(
    alloc: Global,
    fold: &Fold<'_>,
    aim: Option<Goal>,
) -> Result<LinearForm, Memory>
    requires { IfSome aim (λ goal. HasNumber fold.now goal.number) }
    ensures form { IfOk result (λ form. told form ≡ aim_of aim) }
    ensures fair { IfOk result (λ form. IsFair fold.now (told form)) }
{
    match aim {
        None => Ok(empty_form(alloc, fold, 0)),
        Some(goal) => term_form(alloc, fold, 0, sign(goal), goal.number),
    }
}

/// The sign of the number that is minimized.
fn sign(goal: Goal) -> i64
    ensures { result ≡ sign_of goal }
{
    if goal.maximize { -1 } else { 1 }
}
