//! Tests of the public calls of the crates that make programs of formulas and write them.
#![tactic(auto)]

#[cfg(test)]
mod cells;
#[cfg(test)]
mod columns;
#[cfg(test)]
mod text;
