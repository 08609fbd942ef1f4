//! Tests of the public calls of the crates for checked queries, tables and worlds.
#![tactic(auto)]

#[cfg(test)]
mod keys;
#[cfg(test)]
mod queries;
#[cfg(test)]
mod tables;
#[cfg(test)]
mod worlds;
