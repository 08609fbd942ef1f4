//! What every crate stands on: texts, names, values with their order, lists, and how a run ended.
#![tactic(auto)]

mod duplicate;
mod keyword;
mod memory;
mod name;
mod place;
mod status;
mod text;
mod value;

pub use duplicate::{Duplicate, copy_list};
pub use keyword::is_keyword;
pub use memory::Memory;
pub use name::{MOST_NAME_BYTES, Name, NameFault, continues_name, is_name, starts_name};
pub use place::Place;
/// A `Box` that contracts see as the value in it, and a `Vec` that they see as the list of its items.
pub use sqlite_items::{Boxed, Items as List};
pub use status::Status;
pub use text::{MOST_TEXT_BYTES, Txt, TxtFault};
pub use value::{Row, Value, row_order};
