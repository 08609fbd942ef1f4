//! The one part of an answer: the columns with two values.

ghost use Rattle.std.specs.Prelude.{◌≡◌, ◌<◌, length};
ghost use Rattle.branch_tree.specs.Listing as listing;
ghost use Rattle.cert_check.specs.Reasons as spec;

use answer_text::PartAnswer;
use ip_rows::Bounds;

/// Whether some column has two values.
pub fn have_two(sides: &[Bounds]) -> bool
    ensures { result ≡ spec.have_two sides.now }
{
    sides.iter().any(has_two)
}

/// Whether a column has two values.
fn has_two(side: &Bounds) -> bool
    ensures { result ≡ listing.has_two side.now }
{
    side.lo < side.hi
}

/// Whether the parts are all parts in order: the one, or none where no column has two values.
pub fn are_all_parts(sides: &[Bounds], shown: &[PartAnswer]) -> bool
    ensures { result ≡ spec.are_all_parts sides.now shown.now }
{
    match shown {
        [] => !have_two(sides),
        [part] => have_two(sides) && is_the_part(sides, part),
        _ => false,
    }
}

/// Whether a part has the number and the columns of the one part.
pub fn is_the_part(sides: &[Bounds], part: &PartAnswer) -> bool
    ensures { result ≡ spec.is_the_part sides.now part.now }
{
    part.number == 1 && are_open(part.columns.as_slice(), sides)
}

/// Whether these are the numbers of the columns with two values, rising.
fn are_open(columns: &[u32], sides: &[Bounds]) -> bool
    ensures { result ≡ spec.are_open columns.now sides.now }
{
    let mut next: usize = 0;
    for (at, side) in sides.iter().enumerate() {
        if has_two(side) {
            if !has_at(columns, next, at) {
                return false;
            }
            next += 1;
        }
    }
    next == columns.len()
}

/// Whether a number stands in a place.
fn has_at(columns: &[u32], place: usize, number: usize) -> bool
    ensures { result ≡ spec.has_at columns.now place number }
{
    match columns.get(place) {
        Some(column) => *column as usize == number,
        None => false,
    }
}
