//! The factor of a column in a list of terms.
ghost use Rattle.std.specs.Prelude.{◌≡◌};
ghost use Rattle.ip_rows.specs.Rows.{Rise, factor_at};

use ip_rows::Coef;

/// The factor of a column: 0 where no term names it. The terms rise, so a few steps find it.
pub(crate) fn factor_of(terms: &[Coef], column: u32) -> i64
    requires { Rise terms.now }
    ensures { result ≡ factor_at terms.now column }
{
    match terms.binary_search_by_key(&column, |term| term.column) {
        Ok(place) => terms[place].factor,
        Err(_) => 0,
    }
}
