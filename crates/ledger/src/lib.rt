// The ledger of one site, and one step of it: 'One step' and 'Refusal numbers' of document 01.
// The package that keeps a site's accounts calls `Ledger::take` for each record; `run` takes a file of them.
#![tactic(auto)]

mod answer;
mod book;
mod period;

pub use answer::{CarbonTotals, Entered, Taken};
pub use book::Ledger;
