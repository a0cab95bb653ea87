// The refusals of a record by their numbers: 'Refusal numbers' of document 01. The ledger asks it, with its own n, kind, climate
// and year.
#![tactic(auto)]

mod lengths;
mod why;

ghost use Rattle.std.specs.Prelude.{cond, ◌≡◌, eqb};
ghost use Rattle.numbers.specs.Eight.{every_of};
ghost use Rattle.numbers.specs.Fault.{first_of, ahead};
ghost use Rattle.record.specs.Ranges.{light};
ghost use Rattle.refusal.specs.Numbers.{numbered};
ghost use Rattle.refusal.specs.Refusal.{continues, faults_of};

pub use lengths::{left_over, reach};
use record::Factors;
pub use why::{Refusal, number_or_zero};
use year_factors::YearFactors;

// Tells whether a record has a kind and a climate.
#[tactic(auto, unfolding(crate::specs::Refusal::continues))]
fn is_continued(kind: u8, climate: u8, bytes: &[u8]) -> bool
    ensures { result ≡ continues kind climate bytes.now }
{
    (record::kind(bytes) == kind) & (record::climate(bytes) == climate)
}

// Answers the refusal that everything before the masses (9) decides, if any; `good` says whether the ledger is sound.
#[tactic(auto, unfolding(crate::specs::Refusal::faults_of))]
pub fn early(
    n: u16,
    kind: u8,
    climate: u8,
    year: YearFactors,
    good: bool,
    bytes: &[u8],
    room: usize,
) -> Option<Refusal>
    ensures { numbered result ≡ first_of (ahead 9 (faults_of good n kind climate year bytes.now room)) }
{
    if bytes.len() != record::BYTES {
        return Some(Refusal::RecordLength);
    }
    if room < record::BYTES {
        return Some(Refusal::NoRoom);
    }
    if !good {
        return Some(Refusal::UnsoundLedger);
    }
    if n == carbon::RECORDS {
        return Some(Refusal::LedgerFull);
    }
    if !record::is_coded(bytes) {
        return Some(Refusal::NoCode);
    }
    if record::period(bytes) as u64 != n as u64 + 1 {
        return Some(Refusal::PeriodOutOfTurn);
    }
    if (n > 0) & !is_continued(kind, climate, bytes) {
        return Some(Refusal::OtherKindOrClimate);
    }
    if !(Factors::of(bytes).is_in_range() & record::is_dry_in_range(bytes)) {
        return Some(Refusal::OutOfRange);
    }
    if !year.is_shared(n, bytes) {
        return Some(Refusal::OtherYearFactors);
    }
    None
}

// Tells whether every mass of a record is at most the limit.
fn are_light(bytes: &[u8]) -> bool
    ensures { result ≡ every_of (light bytes.now) 8 }
{
    (0..8u8).all(|t| record::is_light(bytes, t))
}

// Answers the refusal of a record, if any: the one that everything before the masses decides, and else 9 for a mass over the limit.
pub fn with_masses(early: Option<Refusal>, bytes: &[u8]) -> Option<Refusal>
    ensures { numbered result ≡ cond (eqb (numbered early) 0) (cond (every_of (light bytes.now) 8) 0 9) (numbered early) }
{
    if early.is_some() {
        return early;
    }
    if !are_light(bytes) {
        return Some(Refusal::MassOverLimit);
    }
    None
}

// Answers that refusal by its number, 0 if none: `early`, which may be any number, and where it is 0, 9 for a mass over the limit.
pub fn number_with_masses(early: u8, bytes: &[u8]) -> u8
    ensures { result ≡ cond (eqb early 0) (cond (every_of (light bytes.now) 8) 0 9) early }
{
    if early != 0 {
        return early;
    }
    if !are_light(bytes) {
        return Refusal::MassOverLimit.number();
    }
    0
}
