//! Leaves of a tree over a program's columns: the point of a leaf's world, the one part, and rows that cannot hold
//! (docs/ANSWERS.md).
#![tactic(auto)]

mod leaf;
mod part;
mod row;

pub use leaf::{has_one_world, leaf_value, meets_rows, value_in};
pub use part::{PartSize, part_columns, part_value, root_sides, too_large};
pub use row::{false_row, is_false_row};
