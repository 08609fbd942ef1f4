//! The whole number that a field of a table spells.
ghost use Rattle.std.specs.Prelude.{◌≡◌, ℤ, IfSome, IfNone};
ghost use Rattle.tables_csv.specs.Numbers as spec;

use std::str;

/// The greatest number that a field spells; the least is as far below 0 (docs/TABLES.md, "Numbers").
pub const MOST_NUMBER: u64 = 1_000_000_000_000_000;

/// The number that a field spells, if it spells one (docs/TABLES.md, "Numbers").
pub(crate) fn number_of(field: &[u8]) -> Option<i64>
    ensures some { IfSome result (λ number. spec.Spells field.now number) }
    ensures none { IfNone result ((number : ℤ) → spec.Spells field.now number → ⊥) }
{
    let Ok(text) = str::from_utf8(before_spaces(after_spaces(field))) else {
        return None;
    };
    let number: i64 = text.parse().ok()?;
    if number.unsigned_abs() <= MOST_NUMBER {
        Some(number)
    } else {
        None
    }
}

// What follows the spaces at the front.
#[tactic(auto, unfolding(crate::specs::Numbers::after_spaces))]
fn after_spaces(field: &[u8]) -> &[u8]
    ensures { result.now ≡ spec.after_spaces field.now }
{
    let mut rest = field;
    while let [b' ', after @ ..] = rest {
        rest = after;
    }
    rest
}

// What stands before the spaces at the end.
#[tactic(auto, unfolding(crate::specs::Numbers::before_spaces, crate::specs::Numbers::after_spaces))]
fn before_spaces(field: &[u8]) -> &[u8]
    ensures { result.now ≡ spec.before_spaces field.now }
{
    let mut rest = field;
    while let [before @ .., b' '] = rest {
        rest = before;
    }
    rest
}
