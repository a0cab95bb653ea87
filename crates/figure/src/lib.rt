// From the releases of a record to its figure and bound: the chain of factors of 'One step' of document 01.
// The ledger calls it, with the factors as a value.
#![tactic(auto)]

ghost use Rattle.std.specs.Prelude.{true, cond, ◌≡◌, ℕ, ◌+◌, ◌-◌, ◌*◌, ◌/◌, ◌^◌, ◌≤◌, ◌<◌, eqb, get_or};
ghost use Rattle.numbers.specs.Eight.{sum_of};
ghost use Rattle.record.specs.Fields.{kind_of, climate_of, factors_of};
ghost use Rattle.record.specs.Ranges.{in_range};
ghost use Rattle.carbon.specs.Carbon.{most_brought};
ghost use Rattle.figure.specs.Figure.{figure_of, b_of, bound_of};

use output::Output;
use record::Factors;

// Answers x1: x0 after the correction factor (percent) and the capture (hundredths of a percent).
fn kept(x0: u64, factor: u64, captured: u64) -> u64
    requires { (factor ≤ 100) × (captured ≤ 10000) }
    ensures { result ≡ x0 * factor * (10000 - captured) / 10 ^ 6 }
{
    numbers::mul_div(x0, factor * (10000 - captured), 1_000_000)
}

// Answers x2: x1 after oxidation, methane share, DOCf and the correction of the site class, each in percent.
fn methane(x1: u64, oxidation: u64, share: u64, docf: u64, correction: u64) -> u64
    requires { (oxidation ≤ 100) × (share ≤ 100) × (docf ≤ 100) × (correction ≤ 100) }
    ensures { result ≡ x1 * (100 - oxidation) * share * docf * correction / 10 ^ 8 }
{
    numbers::mul_div(
        x1,
        (100 - oxidation) * share * docf * correction,
        100_000_000,
    )
}

// Answers the grams CO2e of a number of milligrams of carbon in methane, at a warming potential.
fn grams(x: u64, potential: u8) -> u64
    ensures { (result ≡ x * 4 * potential / 3000) × (result + result ≤ x) }
{
    numbers::mul_div(x, 4 * potential as u64, 3000)
}

// Answers the figure of a record whose releases add up to x0, in grams CO2e.
pub fn figure(factors: Factors, x0: u64) -> u64
    requires { in_range factors ≡ true }
    ensures { result ≡ figure_of factors x0 }
{
    let x1 = kept(x0, factors.factor, factors.captured);
    let correction = waste::correction(factors.class) as u64;
    let x2 = methane(
        x1,
        factors.oxidation,
        factors.methane,
        factors.docf,
        correction,
    );
    grams(x2, factors.potential)
}

// Answers 1 for a type that brought something in, and 0 for any other.
fn counted(brought: u64) -> u64
    ensures { (result ≡ cond (eqb brought 0) 0 1) × (result ≤ 1) }
{
    if brought == 0 { 0 } else { 1 }
}

// Answers n × T / 10^9 rounded down.
fn share(n: u16, brought: u64) -> u64
    ensures { (result ≡ n * brought / 10 ^ 9) × (result ≤ 2 ^ 51) }
{
    numbers::mul_div(brought, n as u64, 1_000_000_000)
}

// Answers B, what the eight types count together: n + 1 for each that brought something in, and the shares of all.
pub fn margins(n: u16, brought: [u64; 8]) -> u64
    ensures { result ≡ b_of n (λ t. get_or brought t 0) }
{
    let mut types = 0u64;
    let mut shares = 0u64;
    for of_type in &brought {
        types += counted(*of_type);
        shares += share(n, *of_type);
    }
    types * (n as u64 + 1) + shares
}

// Answers the bound of a record, from B, in grams CO2e.
pub fn bound(factors: Factors, margins: u64) -> u64
    ensures { result ≡ bound_of factors margins }
{
    3 + grams(margins, factors.potential)
}

// Answers what the output record of record n says, given its bytes, its x0, its decay work, and T and R of the eight types after it.
// A record without decay work releases nothing, so its figure is 0 and the chain is not worked out.
pub fn filed(n: u16, bytes: &[u8], x0: u64, work: u64, brought: [u64; 8], stock: [u64; 8]) -> Output
    requires bytes_value { in_range (factors_of bytes.now) ≡ true }
    requires x0_value { work ≡ 0 → x0 ≡ 0 }
    requires by_index { (t : ℕ) → (t < 8 → (get_or brought t 0 ≤ most_brought) × (get_or stock t 0 ≤ most_brought)) }
    ensures { result ≡ record {
      period = n;
      kind = kind_of bytes.now;
      climate = climate_of bytes.now;
      x0 = x0;
      figure = figure_of (factors_of bytes.now) x0;
      bound = bound_of (factors_of bytes.now) (b_of n (λ t. get_or brought t 0));
      stock = sum_of (λ t. get_or stock t 0) 8;
      brought = sum_of (λ t. get_or brought t 0) 8;
    } }
{
    let factors = Factors::of(bytes);
    let figure = if work == 0 { 0 } else { figure(factors, x0) };
    let left = carbon::total(stock);
    let bound = bound(factors, margins(n, brought));
    let all = carbon::total(brought);
    Output {
        period: n,
        kind: record::kind(bytes),
        climate: record::climate(bytes),
        x0,
        figure,
        bound,
        stock: left,
        brought: all,
    }
}
