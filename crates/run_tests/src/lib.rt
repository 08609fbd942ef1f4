//! Tests of shelves and sinks, of what is taken, and of whole runs, where no clause says what they show.
#![tactic(auto)]

#[cfg(test)]
mod outside;
#[cfg(test)]
mod runs;
