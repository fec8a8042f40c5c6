// The free way on accepted input: the shortest recurrence of the terms by the Berlekamp-Massey algorithm, one
// term at a time, and then the first polynomial of its degree that fits. The first 8,192 work bytes are two
// halves of 4,096: f, the polynomial of least degree so far, stands in one without its leading 1, and g, an
// earlier f, in the other with it; zeros come after both, and updates are in place. The meter takes the same
// steps, one a call. Over GF(2) f and g stand in words on the stack, and the work bytes are only cleared.
// Assumes at most 4,096 terms, and as many lent bytes as each function says.
#![tactic(auto)]

mod binary;
mod shortest;
pub mod step;
mod words;

pub use shortest::{figures, shortest_recurrence};
