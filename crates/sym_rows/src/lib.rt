//! The possible rows of tables and hypothetical tables, with formulas for what differs from world to world, and the steps by which
//! walks make formulas (docs/FORMULAS.md, "The walk").
#![tactic(auto)]

mod fault;
mod hypo;
mod making;
mod part;
mod row;
mod table;

pub use fault::WalkFault;
pub use hypo::{hypo_rows, is_unknown_in, number_in};
pub use making::{abs, and, cell, constant, known, not, or, pos, pres, sum, truth};
pub use row::{Cell, Known, SymRow};
pub use table::table_rows;
