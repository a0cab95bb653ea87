// One year: its reference, its project and both bounds.
ghost use Rattle.std.specs.Prelude.{true, ◌≡◌, ◌+◌, ◌^◌, ◌≤◌, ◌<◌};
ghost use Rattle.record.specs.Ranges.{in_range};
ghost use Rattle.figure.specs.Figure.{figure_of, bound_of};
ghost use Rattle.reductions.specs.Year.{in_class, with_year};

use record::Factors;

// The site classes of the two figures: anaerobic managed for the reference, semi-aerobic managed for the project. Numbers, since they
// stand in the place of a record's byte, as `Factors` holds it.
const REFERENCE_CLASS: u8 = 1;

const PROJECT_CLASS: u8 = 2;

// What the years of a stretch add up to, in grams CO2e.
#[derive(Clone, Copy, Debug, Default, PartialEq, Eq)]
pub struct Sums {
    pub reference: u64,
    pub project: u64,
    pub bound: u64,
}

// Answers factors with another class in the place of theirs.
#[tactic(auto, unfolding(crate::specs::Year::in_class))]
fn in_class(factors: Factors, class: u8) -> Factors
    ensures { result ≡ in_class class factors }
{
    Factors { class, ..factors }
}

// Answers the figure of x0 with a class in the place of that of the factors.
#[tactic(auto, using(crate::proofs::Years::in_class_lem, figure::proofs::Laws::figure_most))]
fn figure_in_class(factors: Factors, class: u8, x0: u64) -> u64
    requires { in_range factors ≡ true }
    ensures { (result ≡ figure_of (in_class class factors) x0) × (result + result ≤ x0) }
{
    figure::figure(in_class(factors, class), x0)
}

// Answers the bound of a project's year from B.
#[tactic(auto, using(figure::proofs::Laws::bound_half))]
fn year_bound(factors: Factors, margins: u64) -> u64
    requires { in_range factors ≡ true }
    ensures { (result ≡ bound_of factors margins) × (result + result ≤ margins + 6) }
{
    figure::bound(factors, margins)
}

// Adds a year to what those before it add up to, given its factors, and x0 and B of the year before; its number counts for nothing.
#[tactic(auto, unfolding(crate::specs::Year::with_year, crate::specs::Year::reference_of, crate::specs::Year::project_of, crate::specs::Year::project_bound, crate::specs::Year::reference_bound, crate::specs::Year::bounds_of))]
pub fn with_year(sums: Sums, factors: Factors, x0: u64, margins: u64) -> Sums
    requires factors_value { in_range factors ≡ true }
    requires x0_bound { (sums.reference + x0 < 2 ^ 64) × (sums.project + x0 < 2 ^ 64) × (sums.bound + margins < 2 ^ 63) }
    ensures { result ≡ with_year sums (record { number = 0; factors = factors; release = x0; B = margins }) }
{
    let anaerobic = figure_in_class(factors, REFERENCE_CLASS, x0);
    let reference = numbers::mul_div(anaerobic, 73, 100);
    let project = figure_in_class(factors, PROJECT_CLASS, x0);
    let bound = year_bound(factors, margins);
    Sums {
        reference: sums.reference + reference,
        project: sums.project + project,
        bound: sums.bound + (bound + 1 + bound),
    }
}
