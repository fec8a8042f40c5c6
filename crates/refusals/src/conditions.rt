// The conditions 7 to 16 and 18 of the numbered list of refusals: one function for each, and a further one
// where a continuation, a set or a file asks in its own way. (1 to 5 are about a file's records, 6 is asked
// where the field is made, and 17 what the search for the powers does.) Each answers whether its condition
// holds over a field, as crate meaning defines it, for any numbers and slices of any length; 12 alone assumes
// that 10 and 11 let the factor pass. None changes a lent byte. The other modules of this crate ask them in
// the order of each call.
pub mod factors;
pub mod files;
pub mod lists;
pub mod numbers;
