//! Tests of the public calls of the crates that write, read, list and check answers.
#![tactic(auto)]

#[cfg(test)]
mod sections;
#[cfg(test)]
mod texts;
#[cfg(test)]
mod trees;
