//! The operations of a bound, two by two.
ghost use Rattle.std.specs.Prelude.{◌≡◌};
ghost use Rattle.safe_bound.specs.Bound as spec;

use ip_rows::Bounds;
use rat128::Rat;

/// The sum with a product.
#[tactic(auto, unfolding(crate::specs::Bound::plus_product))]
pub(crate) fn plus_product(total: &Rat, factor: &Rat, number: i64) -> Option<Rat>
    ensures { result ≡ spec.plus_product total.now factor.now number }
{
    let product = factor.mul(&Rat::from(number))?;
    total.add(&product)
}

/// The difference with a product, where that is not 0.
#[tactic(auto, unfolding(crate::specs::Bound::less_product))]
pub(crate) fn less_product(rest: &Rat, multiplier: &Rat, factor: i64) -> Option<Rat>
    ensures { result ≡ spec.less_product rest.now multiplier.now factor }
{
    if factor == 0 {
        return Some(*rest);
    }
    let product = multiplier.mul(&Rat::from(factor))?;
    rest.sub(&product)
}

/// The sum with what is left of a column's factor times its worst side.
pub(crate) fn plus_side(total: &Rat, rest: &Rat, side: &Bounds) -> Option<Rat>
    ensures { result ≡ spec.plus_product total.now rest.now (spec.worst_side rest.now side.now) }
{
    if rest.num() < 0 {
        plus_product(total, rest, side.hi)
    } else {
        plus_product(total, rest, side.lo)
    }
}
