// The public calls of the rater, and nothing else. Each answers on every input: no call asks anything of its
// caller, and its contract, a record of crate meaning, fixes the whole answer and every lent byte afterwards.
// Of a meter that was not made by a start and by terms nothing is said.
#![tactic(auto)]

// on numbers and slices
pub use catalogue::catalogue_entry;
pub use continue_sequence::continue_sequence;
pub use find_entry::find_entry;
pub use meter::{reading, start_meter, take_term};
pub use questions::{is_irreducible, prime_in_range};
pub use rate_free::rate_free;
pub use rate_period::rate_period;
pub use rate_set::rate_set;

// on route files
pub use rate_file::rate_file;
pub use route::reader::record;
