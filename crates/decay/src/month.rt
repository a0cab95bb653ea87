// The entries by month, each worked out from the series in whole numbers when it is looked up: request e of document 02.
ghost use Rattle.std.specs.Prelude.{◌≡◌, ◌+◌, ◌≤◌, ◌<◌};
ghost use Rattle.waste.specs.Kind.{monthly};
ghost use Rattle.decay.specs.Series.{entry_of, table_of};
ghost use Rattle.decay.specs.ByMonth.{scale, bracket_of, terms, left_after_month, filled_to};

// The whole, as a number of which a billionth is still wide.
const PER_BILLIONTH: u64 = 10_000_000;

const SCALE: u64 = 1_000_000_000 * PER_BILLIONTH;

// The terms of the series behind its first, and what x is the rate over.
const TERMS: u64 = 5;

const RATE_OVER: u64 = 12_000;

// Answers what a bracket of the series comes to, by what the one within it has left, both of the whole.
#[tactic(auto, unfolding(crate::specs::ByMonth::bracket_of))]
fn bracket(rate: u64, n: u64, left: u64) -> u64
    requires { (rate ≤ 400) × (0 < n) × (n ≤ terms) × (left ≤ scale) }
    ensures { result ≡ bracket_of rate n left }
{
    SCALE - left * rate / (RATE_OVER * n)
}

// Answers what a month leaves of the whole.
fn left_after_a_month(rate: u64) -> u64
    requires { rate ≤ 400 }
    ensures { result ≡ left_after_month rate }
{
    let mut left = SCALE;
    for n in (0..TERMS).rev() {
        left = bracket(rate, n + 1, left);
    }
    left
}

// Answers the entry of a rate by month, and 0 for a rate that the table does not have.
pub(crate) fn monthly(rate: u16) -> u32
    ensures { result ≡ entry_of monthly rate }
{
    match rate {
        1..=400 => (left_after_a_month(rate as u64) / PER_BILLIONTH) as u32,
        _ => 0,
    }
}

// Fills five more entries in: few enough for the compiler to unroll.
fn fill_five(table: &mut [u32; 400], from: usize)
    requires from_bound { from + 5 ≤ 400 }
    requires table_value { table.old ≡ filled_to from }
    ensures { table.new ≡ filled_to (from + 5) }
{
    for i in 0..5 {
        table[from + i] = monthly((from + i) as u16 + 1);
    }
}

// Fills fifty more entries in: few enough calls for the compiler to work into the caller.
fn fill_fifty(table: &mut [u32; 400], from: usize)
    requires from_bound { from + 50 ≤ 400 }
    requires table_value { table.old ≡ filled_to from }
    ensures { table.new ≡ filled_to (from + 50) }
{
    fill_five(table, from);
    fill_five(table, from + 5);
    fill_five(table, from + 10);
    fill_five(table, from + 15);
    fill_five(table, from + 20);
    fill_five(table, from + 25);
    fill_five(table, from + 30);
    fill_five(table, from + 35);
    fill_five(table, from + 40);
    fill_five(table, from + 45);
}

// Answers the table by month. The places are written out, so that the compiler knows each rate; where a caller reads known places, only
// their entries stay in the program.
pub(crate) fn monthly_table() -> [u32; 400]
    ensures { result ≡ table_of 2 }
{
    let mut table = [0u32; 400];
    fill_fifty(&mut table, 0);
    fill_fifty(&mut table, 50);
    fill_fifty(&mut table, 100);
    fill_fifty(&mut table, 150);
    fill_fifty(&mut table, 200);
    fill_fifty(&mut table, 250);
    fill_fifty(&mut table, 300);
    fill_fifty(&mut table, 350);
    table
}
