//! Tables: reading the bytes of a file as rows, and writing rows as such bytes, by the records of the crate `csv`.
#![tactic(auto)]

mod fault;
mod hash;
mod keys;
mod number;
mod record;
mod row;
mod table;
mod write;

pub use fault::TableFault;
pub use number::MOST_NUMBER;
pub use table::{MOST_ROWS, read_table};
pub use write::table_text;
