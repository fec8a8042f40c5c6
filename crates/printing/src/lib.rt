// What the program prints: decimal numbers and words, the result line, the poly line, and all lines of a
// rating.
#![tactic(auto)]

pub mod buffer;
pub mod lines;
mod poly_line;
mod result_line;
mod words;
