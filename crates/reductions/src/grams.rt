// Grams of electricity and fuel, the refusals of a stretch, and the reduction.
ghost use Rattle.std.specs.Prelude.{true, ◌≡◌, ◌+◌, ◌*◌, ◌^◌, ◌≤◌, ◌<◌, pos, ◌-ℤ◌, length};
ghost use Rattle.std.specs.Int.Signed.{mag};
ghost use Rattle.numbers.specs.Fault.{between};
ghost use Rattle.reductions.specs.Refusal.{number_of, refusal_number};
ghost use Rattle.reductions.specs.Stretch.{most_grams, grams_light, all_grams, is_stretch, stretch_refusal, less_all};

use std::error::Error;
use std::fmt;

// The most grams CO2e of electricity, and the most of fuel, that a year has.
pub const GRAMS_LIMIT: u64 = 1_000_000_000_000_000;

// The years of a file from a first to a last, counted from 1.
#[derive(Clone, Copy, Debug, PartialEq, Eq)]
pub struct Stretch {
    pub first: u64,
    pub last: u64,
}

// Why a stretch is refused: it is empty, not within the accepted years, or without one entry of each kind of grams for each year; or an
// entry is over the limit.
#[derive(Clone, Copy, Debug, PartialEq, Eq)]
pub enum StretchRefusal {
    NotWithin,
    OverLimit,
}

impl StretchRefusal {
    // Answers the number of the refusal.
    pub fn number(self) -> u8
        ensures { result ≡ number_of self }
    {
        match self {
            StretchRefusal::NotWithin => 24,
            StretchRefusal::OverLimit => 25,
        }
    }
}

impl fmt::Display for StretchRefusal {
    fn fmt<W: fmt::Write>(&self, f: &mut fmt::Formatter<W>) -> fmt::Result {
        match self {
            StretchRefusal::NotWithin => write!(
                f,
                "a stretch of years that is empty, is not within the accepted years, or has not one entry of electricity and one of fuel for each year"
            ),
            StretchRefusal::OverLimit => write!(
                f,
                "an entry of electricity or fuel over 10^15 grams"
            ),
        }
    }
}

impl Error for StretchRefusal {}

// Tells whether no entry is over the limit.
fn are_light(grams: &[u64]) -> bool
    ensures { result ≡ grams_light grams.now }
{
    grams.iter().all(|entry| *entry <= GRAMS_LIMIT)
}

// Answers all grams of some years together.
pub fn all_grams(grams: &[u64]) -> u64
    requires { (grams_light grams.now ≡ true) × (length grams.now ≤ 1200) }
    ensures { (result ≡ all_grams grams.now) × (result ≤ 1200 * most_grams) }
{
    grams.iter().sum()
}

impl Stretch {
    // Tells whether a year is one of the stretch.
    pub fn contains(self, year: u64) -> bool
        ensures { result ≡ between self.first year self.last }
    {
        (self.first..=self.last).contains(&year)
    }

    // Tells whether the years are some, within the accepted ones, and have so many entries of each kind of grams.
    #[tactic(auto, unfolding(crate::specs::Stretch::is_stretch))]
    fn is_within(self, accepted: u64, electricity: usize, fuel: usize) -> bool
        ensures { result ≡ is_stretch self.first self.last accepted electricity fuel }
    {
        if self.first == 0 || !(self.first..=accepted).contains(&self.last) {
            return false;
        }
        let count = self.last - self.first + 1;
        electricity as u64 == count && fuel as u64 == count
    }

    // Refuses a stretch, given how many years are accepted, and the grams of its years.
    #[tactic(auto, unfolding(crate::specs::Stretch::stretch_refusal))]
    pub fn check(
        self,
        accepted: u64,
        electricity: &[u64],
        fuel: &[u64],
    ) -> Result<(), StretchRefusal>
        ensures { refusal_number result ≡ stretch_refusal self.first self.last accepted electricity.now fuel.now }
    {
        if !self.is_within(accepted, electricity.len(), fuel.len()) {
            return Err(StretchRefusal::NotWithin);
        }
        if !(are_light(electricity) && are_light(fuel)) {
            return Err(StretchRefusal::OverLimit);
        }
        Ok(())
    }
}

// Answers a number as a signed one.
fn signed(x: u64) -> i64
    requires { x < 2 ^ 63 }
    ensures { (result ≡ pos x) × (mag result ≡ x) }
{
    x as i64
}

// Answers z less x.
fn less(z: i64, x: u64) -> i64
    requires { mag z + x < 2 ^ 63 }
    ensures { (result ≡ z -ℤ pos x) × (mag result ≤ mag z + x) }
{
    z - signed(x)
}

// Answers reference less project less electricity less fuel, which may be below zero.
#[tactic(auto, using(crate::proofs::Sizes::signed_back), unfolding(crate::specs::Stretch::less_all))]
pub fn less_all(reference: u64, project: u64, electricity: u64, fuel: u64) -> i64
    requires { reference + project + electricity + fuel < 2 ^ 63 }
    ensures { result ≡ less_all reference project electricity fuel }
{
    less(less(less(signed(reference), project), electricity), fuel)
}
