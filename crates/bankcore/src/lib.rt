// The core's calls under C names, a module for each family. A slice is passed as a pointer and a length, an answer as a struct of numbers;
// include/bankcore.h and rust/binding declare them. No call requires anything of its caller.
#![tactic(auto)]

pub mod bank_calls;
pub mod leaf_calls;
pub mod lower_calls;
pub mod row_calls;
pub mod upper_calls;
