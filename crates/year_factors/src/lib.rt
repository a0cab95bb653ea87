// The factors that the months of one year share: request c of document 02. The ledger remembers them, and the refusals ask.
#![tactic(auto, using(std::proofs::lemmas::Bool::Decides::nat_tests), unfolding(crate::specs::YearFactors::no_year, crate::specs::YearFactors::year_of, crate::specs::YearFactors::shares, crate::specs::YearFactors::remembered, crate::specs::YearFactors::sound_year))]

ghost use Rattle.std.specs.Prelude.{◌≡◌};
ghost use Rattle.year_factors.specs.YearFactors.{year_of, no_year, repeats, shares, remembered, year_in_range, sound_year};

use waste::Kind;

// The months of a year.
const MONTHS: u16 = 12;

// A year's captured share f in hundredths of a percent, correction factor in percent, and site class; all 0 where none is remembered.
#[derive(Clone, Copy, Debug, Default, PartialEq, Eq)]
pub struct YearFactors {
    pub captured: u16,
    pub factor: u8,
    pub class: u8,
}

impl YearFactors {
    // Answers that none is remembered.
    pub fn none() -> YearFactors
        ensures { result ≡ no_year }
    {
        YearFactors::default()
    }

    // Answers those of a record.
    pub fn of(bytes: &[u8]) -> YearFactors
        ensures { result ≡ year_of bytes.now }
    {
        YearFactors {
            factor: record::factor(bytes),
            captured: record::captured(bytes),
            class: record::class(bytes),
        }
    }

    // Tells whether a record has the same. Tried: `YearFactors::of(bytes) == self`, which takes 4 instructions a record of a run more.
    fn is_repeated(self, bytes: &[u8]) -> bool
        ensures { result ≡ repeats self bytes.now }
    {
        if record::factor(bytes) != self.factor {
            return false;
        }
        if record::class(bytes) != self.class {
            return false;
        }
        record::captured(bytes) == self.captured
    }

    // Tells whether a record behind n others may come: it is yearly, or has the same, or begins a year.
    pub fn is_shared(self, n: u16, bytes: &[u8]) -> bool
        ensures { result ≡ shares n self bytes.now }
    {
        if Kind::of(record::kind(bytes)) != Some(Kind::Monthly) {
            return true;
        }
        self.is_repeated(bytes) || n % MONTHS == 0
    }

    // Answers what is remembered after a record behind n others.
    pub fn after(self, n: u16, bytes: &[u8]) -> YearFactors
        ensures { result ≡ remembered n self bytes.now }
    {
        let is_monthly = Kind::of(record::kind(bytes)) == Some(Kind::Monthly);
        if is_monthly & (n % MONTHS == 0) {
            return YearFactors::of(bytes);
        }
        self
    }

    // Tells whether they are within their ranges.
    fn is_in_range(self) -> bool
        ensures { result ≡ year_in_range self }
    {
        let factor = record::is_factor(self.factor as u64);
        factor & record::is_share(self.captured as u64) & waste::is_class(self.class)
    }

    // Tells whether a ledger with n records of a kind may remember them.
    pub fn is_sound(self, n: u16, kind: u8) -> bool
        ensures { result ≡ sound_year n kind self }
    {
        let is_monthly = Kind::of(kind) == Some(Kind::Monthly);
        if (n > 0) & is_monthly {
            return self.is_in_range();
        }
        self == YearFactors::none()
    }
}
