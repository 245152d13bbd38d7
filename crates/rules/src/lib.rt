// The types that the rules name. The rules themselves are definitions, in specs/.

#![tactic(auto)]

pub mod answers;
pub mod faces;
pub mod job;
pub mod record;
