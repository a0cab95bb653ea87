// The decay table of document 01: what is left of 10^9 parts after one period, for each rate, by year and by month.
// The ledger looks up the entries of a run once, before its first record.
#![tactic(auto)]

mod month;
mod table;

ghost use Rattle.std.specs.Prelude.{◌≡◌};
ghost use Rattle.decay.specs.Series.{entry_of};

pub use table::{at_rate, table_of};
use waste::Kind;

// Answers the entry of a rate in thousandths, by year or by month, and 0 for any other rate or kind.
#[tactic(auto, unfolding(crate::specs::Series::entry_of))]
pub fn entry(kind: u8, rate: u16) -> u32
    ensures { result ≡ entry_of kind rate }
{
    match Kind::of(kind) {
        Some(Kind::Yearly) => table::yearly(rate),
        Some(Kind::Monthly) => month::monthly(rate),
        None => 0,
    }
}
