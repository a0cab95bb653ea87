// Why a record is refused: 'Refusal numbers' of document 01, with what document 02 adds.
ghost use Rattle.std.specs.Prelude.{◌≡◌};
ghost use Rattle.refusal.specs.Numbers.{number_of, numbered};

use std::error::Error;
use std::fmt;

// The reasons in the order in which they are tested, so that the smaller of two is the one that refuses.
#[derive(Clone, Copy, Debug, PartialEq, Eq, PartialOrd, Ord)]
pub enum Refusal {
    TotalsLength,
    RecordLength,
    NoRoom,
    UnsoundLedger,
    LedgerFull,
    NoCode,
    MonthlyRecord,
    YearlyRecord,
    PeriodOutOfTurn,
    OtherKindOrClimate,
    OutOfRange,
    OtherYearFactors,
    MassOverLimit,
    DamagedTotals,
}

impl Refusal {
    // Answers the number of the reason.
    pub fn number(self) -> u8
        ensures { result ≡ number_of self }
    {
        match self {
            Refusal::TotalsLength => 28,
            Refusal::RecordLength => 1,
            Refusal::NoRoom => 2,
            Refusal::UnsoundLedger => 3,
            Refusal::LedgerFull => 4,
            Refusal::NoCode => 5,
            Refusal::MonthlyRecord => 23,
            Refusal::YearlyRecord => 27,
            Refusal::PeriodOutOfTurn => 6,
            Refusal::OtherKindOrClimate => 7,
            Refusal::OutOfRange => 8,
            Refusal::OtherYearFactors => 17,
            Refusal::MassOverLimit => 9,
            Refusal::DamagedTotals => 32,
        }
    }
}

// Answers the number of a refusal, 0 if there is none.
pub fn number_or_zero(refusal: Option<Refusal>) -> u8
    ensures { result ≡ numbered refusal }
{
    refusal.map_or(0, Refusal::number)
}

impl fmt::Display for Refusal {
    fn fmt<W: fmt::Write>(&self, f: &mut fmt::Formatter<W>) -> fmt::Result {
        f.write_str(match self {
            Refusal::TotalsLength => "a buffer of yearly totals that is not 3200 bytes",
            Refusal::RecordLength => "a record that is not 48 bytes",
            Refusal::NoRoom => "a record with less than 48 bytes of room for its output",
            Refusal::UnsoundLedger => "an unsound ledger",
            Refusal::LedgerFull => "a record after 1200 others",
            Refusal::NoCode => {
                "a kind, climate or site class that is no code, or byte 14 or 15 that is not 0"
            }
            Refusal::MonthlyRecord => "reductions in Tunisia: a monthly record",
            Refusal::YearlyRecord => "yearly totals: a yearly record",
            Refusal::PeriodOutOfTurn => "a period that is not the next in turn",
            Refusal::OtherKindOrClimate => "a kind or climate that is not the ledger's",
            Refusal::OutOfRange => {
                "a correction factor, OX, F, DOCf, GWP, captured share or dry matter of sludge outside its range"
            }
            Refusal::OtherYearFactors => {
                "a month whose correction factor, site class or captured share is not that of the year's first month"
            }
            Refusal::MassOverLimit => "a mass over 1,000,000,000 kg",
            Refusal::DamagedTotals => {
                "totals of the record's year that are damaged, or do not go with the ledger"
            }
        })
    }
}

impl Error for Refusal {}
