// Route files: the records of a file, what they hold, the walk over them by the refusals 2, 3 and 4, the
// verdict by 1 to 5, and the reader by record number.
#![tactic(auto)]

pub mod acceptance;
pub mod framing;
pub mod kind;
pub mod mode;
pub mod payload;
pub mod reader;
pub mod walk;
