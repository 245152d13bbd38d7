// The points of curves and tables: their limits and their order.

#![tactic(auto)]

pub mod checks;
