//! Tests of the public calls that take a query from its text to its checked form, and of those of the grid of links, on values
//! that a person worked out.
#![tactic(auto)]

#[cfg(test)]
mod base;
#[cfg(test)]
mod check;
#[cfg(test)]
mod lex;
#[cfg(test)]
mod links;
#[cfg(test)]
mod read;
#[cfg(test)]
mod tree;
