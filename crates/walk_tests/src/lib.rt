//! Tests of the public calls of the crates that walk a query over its possible rows.
#![tactic(auto)]

#[cfg(test)]
mod rows;
