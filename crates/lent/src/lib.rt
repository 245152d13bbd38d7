// A layer that is lent by its parts: its progress, the record that holds it, and, in specs/, what a record that is a layer gives to
// the functions that are lent its parts.

#![tactic(auto)]

pub mod state;
