//! Tests of exact fractions and of bounds: values that were worked out by hand, or by other programs.
#![tactic(auto)]

#[cfg(test)]
mod bounds;
#[cfg(test)]
mod fractions;
#[cfg(test)]
mod sweep;
