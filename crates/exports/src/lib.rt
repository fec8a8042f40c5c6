// The public calls for programs in other languages: each function is the call of crate rater that it names,
// on every input, with numbers, structs of numbers and slices alone; `gobashe_profile` is those of the meter
// together, and `gobashe_record` tells where in the file the body of the record is. include/gobashe.h
// declares them all. A call with refusals tells its status, which is 0 where it is accepted and else the
// number of the refusal, with zeros for all other numbers. A refusal leaves the lent bytes as they were, but
// for the first 8,192 work bytes, which the refusals by 17 and 19 leave zero.
// `tools/library` builds the library that has them all.
#![tactic(auto)]

pub mod asking;
pub mod continuation;
pub mod entries;
mod field;
pub mod profile;
pub mod ratings;
pub mod reader;
mod status;
