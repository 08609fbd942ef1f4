//! The meaning of a query: which worlds are possible, which meet it, and how good each is.
#![tactic(auto)]

mod columns;
mod fault;
mod judge;
mod marks;
mod numbers;
mod part;
mod views;
mod world;
mod worlds;

pub use columns::{Tables, rows_of, world_columns};
pub use fault::{BoundsFault, EvalFault};
pub use judge::{Broken, meets, score, score_met};
pub use numbers::{numbers_of, world_at};
pub use views::view_rows;
pub use world::{World, WorldTable};
pub use worlds::is_possible;
