// The job's bytes: their header, the causes 1 to 4, and their pairs.

#![tactic(auto)]

pub mod framing;
pub mod header;
pub mod pairs;
