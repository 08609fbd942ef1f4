//! Making calls of the list of formulas as steps of a walk, beside those of `sym_rows`.

ghost use Rattle.std.specs.Prelude.{◌≡◌, All, map, filter, pos, if◌then◌else◌};
ghost use Rattle.prov_fold.specs.Graphs.{HasNumber, HasTruth, HasPair};
ghost use Rattle.prov_fold.specs.Rules as rule;
ghost use Rattle.prov_fold.specs.Spans.{least};
ghost use Rattle.prov_fold.specs.Values.{holds};
ghost use Rattle.sym_rows.specs.Walks.{Makes, by_rule, lifted};

use prov_fold::{Fold, FoldFault, Pair};
use sym_rows::WalkFault;

/// What a call of the fold came to.
fn lifted(made: Result<u32, FoldFault>) -> Result<u32, WalkFault>
    ensures { result ≡ lifted made }
{
    Ok(made?)
}

/// A number where a truth holds, and else 0. It is `Wide` or `Full` where the sum that is made of a constant is, or where the list is
/// full (docs/FORMULAS.md, "Fold rules").
pub(crate) fn guard(fold: &mut Fold<'_>, truth: u32, number: u32) -> Result<u32, WalkFault>
    requires truth { HasTruth fold.old truth }
    requires number { HasNumber fold.old number }
    ensures { Makes (by_rule (rule.guard truth number) fold.old) HasNumber (λ id _ v. v id ≡ (if holds v truth then v number else pos 0)) fold.old result fold.new }
{
    lifted(fold.guard(truth, number))
}

/// The least number whose truth holds, and 0 where none does. It is `Full` where the list is full (docs/FORMULAS.md, "Fold rules").
pub(crate) fn min(fold: &mut Fold<'_>, pairs: &[Pair]) -> Result<u32, WalkFault>
    requires { All (λ pair. HasPair fold.old pair) pairs.now }
    ensures { Makes (by_rule (rule.min_of pairs.now) fold.old) HasNumber (λ id _ v. v id ≡ least (map (λ (pair : _). v pair.number) (filter (λ (pair : _). holds v pair.truth) pairs.now))) fold.old result fold.new }
{
    lifted(fold.min(pairs))
}

/// A number by a name of its own, where it has two terms or more. It is `Full` where the list is full (docs/FORMULAS.md, "Fold rules").
pub(crate) fn tot(fold: &mut Fold<'_>, number: u32) -> Result<u32, WalkFault>
    requires { HasNumber fold.old number }
    ensures { Makes (by_rule (rule.tot number) fold.old) HasNumber (λ id _ v. v id ≡ v number) fold.old result fold.new }
{
    lifted(fold.tot(number))
}
