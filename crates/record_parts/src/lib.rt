// What a record holds: its form, its faces, its sizes, and its balance of water.

#![tactic(auto)]

pub mod balance;
pub mod faces;
pub mod form;
pub mod sizes;
