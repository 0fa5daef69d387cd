// The leaves of the bank core: CRC-32, numbers in bytes, generations, dates. Every function accepts any input.
#![tactic(auto)]

pub mod bytes;
pub mod crc;
pub mod date;
pub mod generation;
