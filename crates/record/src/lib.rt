// One record: its fields, its factors as a value, its codes and ranges, and the carbon that it brings: 'One record' of document 01.
// The ledger calls it. Any bytes may be asked: what is not there counts 0, so only 48 bytes are a record.
#![tactic(auto)]

mod bytes;
mod factors;
mod fields;

pub use factors::{Factors, is_factor, is_share};
pub use fields::{
    captured, class, climate, deposit, factor, is_coded, is_dry_in_range, is_light, kind, period,
};

// The bytes of a record, and of an output record.
pub const BYTES: usize = 48;
