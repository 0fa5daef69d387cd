// What the programs share: an image read, arguments, bytes and texts, and what is written to standard output and standard error.
#![tactic(auto)]

pub mod arguments;
pub mod bytes;
pub mod image;
pub mod lengths;
pub mod message;
pub mod number;
pub mod options;
pub mod output;
pub mod text;
