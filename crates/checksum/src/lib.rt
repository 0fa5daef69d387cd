// The CRC's shift register, many bytes at a time: one register, or two over the same bytes.
#![tactic(auto)]

pub mod pair;
pub mod register;
mod table;
