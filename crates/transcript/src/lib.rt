// Lists of calls as a file gives them, and their answers as text.

#![tactic(auto)]

pub mod input;
pub mod lines;
