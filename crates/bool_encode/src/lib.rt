//! The rows of And and Or, the rows of any linear form, and the point of a world (docs/ENCODING.md).
#![tactic(auto)]

mod form;
mod point;
mod rows;
mod scrap;
mod stand;

pub use form::{Key, Piece, form_row, joined_row, times};
pub use point::point_of;
pub use rows::bool_rows;
pub use stand::{ColumnMap, Stand};
