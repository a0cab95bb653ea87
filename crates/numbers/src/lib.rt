// Whole-number arithmetic that no section of document 01 owns: multiply-and-divide, numbers as little-endian bytes, tests.
// The crates above call it; most of it asks that what it works out fits, so none of it is for a user to call.
#![tactic(auto)]

mod copy;
mod le;
mod ratio;
mod row;
mod test;

pub use copy::write_bytes;
pub use le::{read, write};
pub use ratio::mul_div;
pub use row::{read_eight, write_eight};
pub use test::is_between;
