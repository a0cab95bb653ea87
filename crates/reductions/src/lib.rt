// What one year gives under the Tunisian reference method, and what a stretch of years is refused by and comes to: request i of document
// 02, after source 002. Nothing here has a ledger; `tunisia` calls it for the years of a file.
#![tactic(auto)]

mod grams;
mod year;

pub use grams::{GRAMS_LIMIT, Stretch, StretchRefusal, all_grams, less_all};
pub use year::{Sums, with_year};
