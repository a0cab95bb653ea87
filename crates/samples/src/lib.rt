// Masses from sorting samples: a total that was weighed is parted among the eight types by the fractions of some sorted samples.
// It serves request a of document 02, and is called by the package whose operators weigh whole trucks and sort a few.
#![tactic(auto)]

ghost use Rattle.std.specs.Prelude.{true, ◌&&◌, ◌≡◌, ◌+◌, ◌-◌, ◌*◌, ◌/◌, ◌%◌, ◌≤◌, ◌<◌, eqb, cond, length, get_or};
ghost use Rattle.numbers.specs.Eight.{eight, sum_of, every_of};
ghost use Rattle.waste.specs.Waste.{mass_limit};
ghost use Rattle.samples.specs.Samples.{sample_bytes, whole_sample, most_samples, right_number, fraction_at, adds_up, number_of, refusal_number, numbers_of, sorted_of};

use std::error::Error;
use std::fmt;
use waste::Kind;

// The bytes of a sample.
const BYTES: usize = 16;

// What the fractions of a sample add up to, in hundredths of a percent.
const WHOLE: u32 = 10000;

// How many samples a year has to have, from the least to the most, and a month.
const LEAST_A_YEAR: u64 = 12;

const MOST_A_YEAR: u64 = 400;

const A_MONTH: u64 = 3;

// Why a total or its samples are refused.
#[derive(Clone, Copy, Debug, PartialEq, Eq)]
pub enum SamplesRefusal {
    TotalTooLarge,
    WrongNumber,
    NotWhole,
}

impl SamplesRefusal {
    // Answers the number of the refusal.
    pub fn number(self) -> u8
        ensures { result ≡ refusal_number self }
    {
        match self {
            SamplesRefusal::TotalTooLarge => 14,
            SamplesRefusal::WrongNumber => 15,
            SamplesRefusal::NotWhole => 16,
        }
    }
}

impl fmt::Display for SamplesRefusal {
    fn fmt<W: fmt::Write>(&self, f: &mut fmt::Formatter<W>) -> fmt::Result {
        match self {
            SamplesRefusal::TotalTooLarge => {
                write!(f, "sorting samples: a total over 1,000,000,000 kg")
            }
            SamplesRefusal::WrongNumber => write!(
                f,
                "a kind that is neither year nor month, or not the samples that it has to have: 12 to 400 for a year, three for a month, all whole"
            ),
            SamplesRefusal::NotWhole => {
                write!(f, "a sample whose fractions do not add up to 100 %")
            }
        }
    }
}

impl Error for SamplesRefusal {}

// Tells whether a year or a month has to have so many samples.
#[tactic(auto, using(crate::proofs::Answer::no_kind))]
fn is_enough(kind: u8, count: u64) -> bool
    ensures { result ≡ right_number kind count }
{
    match Kind::of(kind) {
        Some(Kind::Yearly) => numbers::is_between(LEAST_A_YEAR, count, MOST_A_YEAR),
        Some(Kind::Monthly) => count == A_MONTH,
        None => false,
    }
}

// Tells whether so many bytes are the samples that a year or a month has to have.
fn is_right_number(kind: u8, bytes: usize) -> bool
    ensures { result ≡ (right_number kind (bytes / sample_bytes) && eqb (bytes % sample_bytes) 0) }
{
    is_enough(kind, (bytes / BYTES) as u64) & (bytes % BYTES == 0)
}

// Answers the fraction of a sample at a type's place.
#[tactic(auto, unfolding(crate::specs::Samples::fraction_at))]
fn fraction_of(sample: &[u8], t: usize) -> u16
    requires { 2 * t + 2 ≤ length sample.now }
    ensures { result ≡ fraction_at sample.now 0 t }
{
    u16::from_le_bytes([sample[2 * t], sample[2 * t + 1]])
}

// Adds the fractions of a sample to those of the samples before it, and answers beside that what they add up to themselves.
fn add_sample(before: [u32; 8], sample: &[u8]) -> ([u32; 8], u32)
    requires sample_len { length sample.now ≡ sample_bytes }
    requires before_small { (t : _) → t < 8 → get_or before t 0 ≤ whole_sample * most_samples }
    ensures added { result.0 ≡ eight (λ t. get_or before t 0 + fraction_at sample.now 0 t) }
    ensures sum { result.1 ≡ sum_of (fraction_at sample.now 0) 8 }
{
    let mut added = [0; 8];
    let mut sum = 0;
    for (t, all) in added.iter_mut().enumerate() {
        let fraction = fraction_of(sample, t) as u32;
        *all = before[t] + fraction;
        sum += fraction;
    }
    (added, sum)
}

// Tells whether fractions that add up to so much are a whole sample.
fn is_whole(sum: u32) -> bool
    ensures { result ≡ eqb sum whole_sample }
{
    sum == WHOLE
}

// Adds the fractions of some samples, or answers none where a sample does not add up.
fn add_samples(samples: &[u8]) -> Option<[u32; 8]>
    requires { length samples.now / sample_bytes ≤ most_samples }
    ensures { result ≡ cond (every_of (adds_up samples.now) (number_of samples.now)) (Some (eight (λ t. sum_of (λ n. fraction_at samples.now n t) (number_of samples.now)))) None }
{
    let mut added = [0; 8];
    let mut sum = WHOLE;
    for sample in samples.chunks_exact(BYTES) {
        // a sum is looked at one sample later: so the compiler keeps the eight sums in registers, and not the fractions
        if !is_whole(sum) {
            return None;
        }
        (added, sum) = add_sample(added, sample);
    }
    is_whole(sum).then_some(added)
}

// Parts a total by the fractions of each type, which are parts of a whole: a type's mass is what is reached with it, rounded down, less
// what was reached without it.
fn part(total: u64, fractions: [u32; 8], whole: u64) -> [u32; 8]
    requires { (total ≤ mass_limit) × (0 < whole) × (whole ≤ whole_sample * most_samples) × (sum_of (λ t. get_or fractions t 0) 8 ≤ whole) }
    ensures { result ≡ eight (λ t. total * sum_of (λ u. get_or fractions u 0) (t + 1) / whole - total * sum_of (λ u. get_or fractions u 0) t / whole) }
{
    let mut masses = [0u32; 8];
    let mut parts = 0u64;
    let mut before = 0u64;
    for (t, mass) in masses.iter_mut().enumerate() {
        parts += fractions[t] as u64;
        let reached = total * parts / whole;
        *mass = (reached - before) as u32;
        before = reached;
    }
    masses
}

// Answers the masses of the eight types, or refuses: a total that is too large, a kind or a number of samples that is not right, a
// sample that does not add up, in that order. The kind is a byte, since a byte that is no kind is answered too, and only after the total.
pub fn masses(kind: u8, total: u64, samples: &[u8]) -> Result<[u32; 8], SamplesRefusal>
    ensures { numbers_of result ≡ sorted_of kind total samples.now }
{
    if total > waste::MASS_LIMIT {
        return Err(SamplesRefusal::TotalTooLarge);
    }
    if !is_right_number(kind, samples.len()) {
        return Err(SamplesRefusal::WrongNumber);
    }
    let fractions = add_samples(samples).ok_or(SamplesRefusal::NotWhole)?;
    let whole = WHOLE as u64 * (samples.len() / BYTES) as u64;
    Ok(part(total, fractions, whole))
}
