//! Tests of reduction and of parts, on a program that a person worked out.
#![tactic(auto)]

#[cfg(test)]
mod worked;
