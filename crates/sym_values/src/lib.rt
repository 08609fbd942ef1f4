//! What expressions and conditions are on a combination of possible rows: plain values, and formulas where they differ from world
//! to world (docs/FORMULAS.md, "The walk").
#![tactic(auto)]

mod conditions;
mod numbers;
mod parts;
mod plain_values;

pub use conditions::condition;
pub use numbers::number;
pub use parts::{conjuncts, equalities, is_unknown, others};
pub use plain_values::{cell_there, plain, text};
