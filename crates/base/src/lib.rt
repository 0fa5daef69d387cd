// What every other crate may use: operations on numbers and slices, the number of tables.
#![tactic(auto)]

pub mod number;
pub mod slice;
pub mod table;
