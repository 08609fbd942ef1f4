//! Tests of the public calls of the crates that hold formulas and make them.
#![tactic(auto)]

#[cfg(test)]
mod making;
#[cfg(test)]
mod parts;
