// Reductions under the Tunisian reference method: request i of document 02, after source 002. A package that reports a project of
// that method calls `reduction_over` with the site's yearly records.
#![tactic(auto)]

mod accepted;
mod year;

ghost use Rattle.std.specs.Prelude.{◌≡◌, ◌*◌, ◌^◌, ◌≤◌};
ghost use Rattle.std.specs.Int.Signed.{mag};
ghost use Rattle.tunisia.specs.Reduction.{reduction_of};
ghost use Rattle.tunisia.specs.Numbers.{numbers_of};

use accepted::accepted_years;
use reductions::{Stretch, StretchRefusal, all_grams, less_all};
use refusal::Refusal;

// Reference, project, reduction and bound of a stretch in grams CO2e.
#[derive(Clone, Copy, Debug, PartialEq, Eq)]
pub struct Amounts {
    pub reference: u64,
    pub project: u64,
    pub reduction: i64,
    pub bound: u64,
}

// The amounts of a stretch, or why it is refused; how many years were accepted, and the refusal of the record after them, if any.
#[derive(Clone, Copy, Debug, PartialEq, Eq)]
pub struct YearsReport {
    pub amounts: Result<Amounts, StretchRefusal>,
    pub years: u64,
    pub refused: Option<Refusal>,
}

// Answers reference, project, reduction and bound over the years of a stretch of a file of yearly records, with the grams CO2e of
// electricity and fuel of each of these years; or refuses the stretch. The two lists stay apart, as a caller in C has them.
pub fn reduction_over(
    file: &[u8],
    stretch: Stretch,
    electricity: &[u64],
    fuel: &[u64],
) -> YearsReport
    ensures value { numbers_of result ≡ reduction_of file.now stretch.first stretch.last electricity.now fuel.now }
    ensures reduction_bound { mag (numbers_of result).reduction ≤ 72 * 10 ^ 17 }
{
    let accepted = accepted_years(file, stretch);
    if let Err(why) = stretch.check(accepted.years, electricity, fuel) {
        return YearsReport {
            amounts: Err(why),
            years: accepted.years,
            refused: accepted.refused,
        };
    }
    let sums = accepted.sums;
    let reduction = less_all(
        sums.reference,
        sums.project,
        all_grams(electricity),
        all_grams(fuel),
    );
    YearsReport {
        amounts: Ok(Amounts {
            reference: sums.reference,
            project: sums.project,
            reduction,
            bound: sums.bound,
        }),
        years: accepted.years,
        refused: accepted.refused,
    }
}
