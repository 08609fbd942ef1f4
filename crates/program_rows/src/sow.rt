//! The nodes whose columns stand in the rows of the roots and in the aim.
ghost use Rattle.std.specs.Prelude.{◌≡◌, ◌++◌, ◌∷◌, [], pos, replicate, All, IfOk, OnOk};
ghost use Rattle.prov_fold.specs.Graphs.{size};
ghost use Rattle.program_rows.specs.Fair.{told, told_all, IsFair};
ghost use Rattle.program_rows.specs.Goals.{AreSeedsOf};
ghost use Rattle.program_rows.specs.Sown.{Sows};

use crate::linear::LinearForm;
use base_kit::{List, Memory};
use prov_fold::Fold;
use std::alloc::Global;
use used_columns::seeds;

/// The seeds of the forms of roots and of the aim.
pub(crate) fn seeds_of(
    alloc: Global,
    fold: &Fold<'_>,
    forms: &[LinearForm],
    aim: &LinearForm,
) -> Result<List<u32>, Memory>
    requires forms { All (IsFair fold.now) (told_all forms.now) }
    requires aim { IsFair fold.now (told aim.now) }
    ensures sown { IfOk result (λ seeds. AreSeedsOf fold.now (told_all forms.now ++ told aim.now ∷ []) seeds) }
{
    let mut totals = vec![in alloc; 0i64; fold.prov().len() as usize]?;
    sow_all(alloc, fold, totals.as_mut_slice(), forms, aim)
}

/// The same, with a 0 for each node.
fn sow_all(
    alloc: Global,
    fold: &Fold<'_>,
    totals: &mut [i64],
    forms: &[LinearForm],
    aim: &LinearForm,
) -> Result<List<u32>, Memory>
    requires totals { totals.old ≡ replicate (size fold.now) (pos 0) }
    requires forms { All (IsFair fold.now) (told_all forms.now) }
    requires aim { IsFair fold.now (told aim.now) }
    ensures { IfOk result (λ seeds. AreSeedsOf fold.now (told_all forms.now ++ told aim.now ∷ []) seeds) }
{
    let mut all = List::new(alloc);
    for form in forms {
        sow(alloc, fold, totals, &mut all, form)?;
    }
    sow(alloc, fold, totals, &mut all, aim)?;
    Ok(all)
}

/// Appends the seeds of a form.
fn sow(
    alloc: Global,
    fold: &Fold<'_>,
    totals: &mut [i64],
    all: &mut List<u32>,
    form: &LinearForm,
) -> Result<(), Memory>
    requires totals { totals.old ≡ replicate (size fold.now) (pos 0) }
    requires fair { IsFair fold.now (told form.now) }
    ensures sown { OnOk result (Sows fold.now (told form.now) all.old all.new) }
    ensures totals { OnOk result (totals.new ≡ totals.old) }
{
    let more = seeds(alloc, fold, totals, form.pieces.as_slice())?;
    Ok(all.append(more)?)
}
