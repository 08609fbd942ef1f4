//! A number that counts where a truth holds, as a step of a walk.

ghost use Rattle.std.specs.Prelude.{◌≡◌, pos, if◌then◌else◌};
ghost use Rattle.prov_fold.specs.Graphs.{HasNumber, HasTruth};
ghost use Rattle.prov_fold.specs.Rules as rule;
ghost use Rattle.prov_fold.specs.Values.{holds};
ghost use Rattle.sym_rows.specs.Walks as walks;
ghost use Rattle.sym_rows.specs.Walks.{Makes, by_rule};

use prov_fold::{Fold, FoldFault};
use sym_rows::WalkFault;

/// The number where the truth holds, else 0. It is `Wide` where the number is a constant and the sum that is made passes 10^17 in size,
/// and `Full` where the list is full (docs/FORMULAS.md, "Fold rules").
pub(crate) fn guard(fold: &mut Fold<'_>, truth: u32, number: u32) -> Result<u32, WalkFault>
    requires truth { HasTruth fold.old truth }
    requires number { HasNumber fold.old number }
    ensures { Makes (by_rule (rule.guard truth number) fold.old) HasNumber (λ id _ v. v id ≡ (if holds v truth then v number else pos 0)) fold.old result fold.new }
{
    lifted(fold.guard(truth, number))
}

/// What a call of the fold came to.
fn lifted(made: Result<u32, FoldFault>) -> Result<u32, WalkFault>
    ensures { result ≡ walks.lifted made }
{
    Ok(made?)
}
