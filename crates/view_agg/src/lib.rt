//! The possible rows of views (docs/FORMULAS.md, "The walk").
#![tactic(auto)]

mod view;

pub use view::view_sym;
