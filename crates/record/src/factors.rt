// The factors of a record, as a value.
ghost use Rattle.std.specs.Prelude.{◌≡◌};
ghost use Rattle.record.specs.Fields.{factors_of};
ghost use Rattle.record.specs.Ranges.{is_factor, is_share, in_range};

use crate::bytes::{byte, two};

// Tells whether a number is a correction factor.
pub fn is_factor(percent: u64) -> bool
    ensures { result ≡ is_factor percent }
{
    numbers::is_between(1, percent, 100)
}

// Tells whether a number is a captured share.
pub fn is_share(captured: u64) -> bool
    ensures { result ≡ is_share captured }
{
    captured <= 10000
}

// Correction factor, oxidation OX, methane share F and DOCf in percent, the site class, the warming potential GWP, and the captured
// share f in hundredths of a percent; wide where they are multiplied, so that the compiler keeps each in a place of its own.
#[derive(Clone, Copy, Debug, PartialEq, Eq)]
pub struct Factors {
    pub factor: u64,
    pub oxidation: u64,
    pub methane: u64,
    pub docf: u64,
    pub class: u8,
    pub potential: u8,
    pub captured: u64,
}

impl Factors {
    // Answers the factors of a record.
    pub fn of(bytes: &[u8]) -> Factors
        ensures { result ≡ factors_of bytes.now }
    {
        Factors {
            factor: byte(bytes, 4) as u64,
            oxidation: byte(bytes, 5) as u64,
            methane: byte(bytes, 6) as u64,
            docf: byte(bytes, 7) as u64,
            class: byte(bytes, 8),
            potential: byte(bytes, 9),
            captured: two(bytes, 10) as u64,
        }
    }

    // Tells whether the factors, class aside, are within their ranges.
    pub fn is_in_range(self) -> bool
        ensures { result ≡ in_range self }
    {
        let percents = (self.oxidation <= 100) & (self.methane <= 100) & (self.docf <= 100);
        is_factor(self.factor)
            & percents
            & numbers::is_between(1, self.potential as u64, 100)
            & is_share(self.captured)
    }
}
