// The tests of a description: the causes 5 to 8.

#![tactic(auto)]

pub mod causes;
pub mod fields;
