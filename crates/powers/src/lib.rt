// Powers of polynomials: powers of p, the search for the least power that annihilates
// terms, and the product of powers in the answer.
#![tactic(auto)]

pub mod digit_search;
pub mod levels;
pub mod product;
