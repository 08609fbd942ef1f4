//! Parts of slices.

ghost use Rattle.std.specs.Prelude.{◌≡◌, ◌≤◌, length, take, drop};

/// The items from a place on.
pub(crate) fn behind<T>(items: &[T], from: usize) -> &[T]
    requires { from ≤ length items.now }
    ensures { result.now ≡ drop from items.now }
{
    &items[from..]
}

/// The items up to a place.
pub(crate) fn head<T>(items: &[T], end: usize) -> &[T]
    requires { end ≤ length items.now }
    ensures { result.now ≡ take end items.now }
{
    &items[..end]
}
