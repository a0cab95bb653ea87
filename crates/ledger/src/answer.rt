// What a step and the totals answer.
use crate::book::Ledger;
use output::Output;

// Of an accepted record: the ledger after it, the eight releases in mg, their sum x0 in mg, the figure and its bound in grams CO2e.
#[derive(Clone, Copy)]
pub struct Taken {
    pub ledger: Ledger,
    pub releases: [u64; 8],
    pub x0: u64,
    pub figure: u64,
    pub bound: u64,
}

// The ledger after an accepted record, what its output record says, and the record's decay work.
#[derive(Clone, Copy)]
pub struct Entered {
    pub ledger: Ledger,
    pub says: Output,
    pub work: u64,
}

// The carbon left, brought in and released so far over all types, in mg.
#[derive(Clone, Copy, Debug, PartialEq, Eq)]
pub struct CarbonTotals {
    pub stock: u64,
    pub brought: u64,
    pub released: u64,
}
