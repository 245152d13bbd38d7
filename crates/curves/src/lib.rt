// Both curves: their steepness, and reading them.

#![tactic(auto)]

pub mod reading;
pub mod steep;
