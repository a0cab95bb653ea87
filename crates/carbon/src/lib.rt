// The carbon of one type and of all eight, as lists: table entries, what a period leaves, what so many records can bring, and sums.
// It serves 'One step' and refusal 3 of document 01; the crates above call it, and no user. Place 0 of a list is type 1.
#![tactic(auto)]

ghost use Rattle.std.specs.Prelude.{◌≡◌, ℕ, ◌+◌, ◌-◌, ◌%◌, ◌^◌, ◌<◌, ◌≤◌, ◌&&◌, nat_le, slice_index, slice_index_or};
ghost use Rattle.numbers.specs.Eight.{eight, sum_of, every_of};
ghost use Rattle.decay.specs.Series.{at_rate};
ghost use Rattle.waste.specs.Waste.{rate_of};
ghost use Rattle.carbon.specs.Carbon.{most_records, entry_at, left_of, ceiling_of, within_of};

// The most records that a ledger takes.
pub const RECORDS: u16 = 1200;

// Answers what a table has for eight rates.
fn rated(table: &[u32], rates: [u16; 8]) -> [u32; 8]
    ensures { result ≡ eight (λ t. at_rate table.now (slice_index rates t)) }
{
    std::array::from_fn(|t| decay::at_rate(table, rates[t]))
}

// Answers what a table has for the eight types in a climate. Each climate is written out, so that its rates are known before the
// program runs, and only their entries of a table are stored.
fn in_climate(table: &[u32], climate: u8) -> [u32; 8]
    ensures { result ≡ eight (λ t. at_rate table.now (rate_of (t + 1) climate)) }
{
    match climate {
        1 => rated(table, waste::rates(1)),
        2 => rated(table, waste::rates(2)),
        3 => rated(table, waste::rates(3)),
        4 => rated(table, waste::rates(4)),
        _ => [0; 8],
    }
}

// Answers the table entries of the eight types in a kind and climate.
pub fn entries(kind: u8, climate: u8) -> [u32; 8]
    ensures { result ≡ eight (entry_at kind climate) }
{
    let table = decay::table_of(kind);
    in_climate(&table, climate)
}

// Answers what is left of a stock with its deposit after one period, at the type's table entry.
pub fn left(held: u64, entry: u32) -> u64
    requires { entry < 10 ^ 9 }
    ensures { (result ≡ left_of held entry) × (result ≤ held) }
{
    numbers::mul_div(held, entry as u64, 1_000_000_000)
}

// Answers what each type has in one list less what it has in another.
pub fn less(of: [u64; 8], by: [u64; 8]) -> [u64; 8]
    requires { (t : ℕ) → (t < 8 → slice_index by t ≤ slice_index_or «of» t 0) }
    ensures { result ≡ eight (λ t. slice_index_or «of» t 0 - slice_index by t) }
{
    std::array::from_fn(|t| of[t] - by[t])
}

// Tells whether T of place t is within what n records can bring, and made up of R and what was released. A sum that 64 bits do
// not hold comes out below R, so that with R at most T no wrapped sum is T.
fn is_within(n: u64, brought: u64, left: u64, released: u64, t: usize) -> bool
    requires { (n ≤ most_records) × (t < 8) }
    ensures { result ≡ within_of n brought left released t }
{
    let ceiling = n * waste::MASS_LIMIT * waste::carbon(t as u8 + 1, waste::MOST_DRY) as u64 * 100;
    if brought > ceiling {
        return false;
    }
    if left > brought {
        return false;
    }
    released.wrapping_add(left) == brought
}

// Tells whether there are no more records than a ledger takes, and every T is within what they can bring, and made up so.
pub fn are_within(n: u16, brought: &[u64; 8], left: &[u64; 8], released: &[u64; 8]) -> bool
    ensures { result ≡ (nat_le n most_records
        && every_of (λ t. within_of n (slice_index brought.now t) (slice_index left.now t) (slice_index released.now t) t) 8) }
{
    n <= RECORDS && (0..8).all(|t| is_within(n as u64, brought[t], left[t], released[t], t))
}

// Answers the sum over the eight types, in 64 bits; no sum of a sound ledger is wider.
pub fn total(of: [u64; 8]) -> u64
    ensures { result ≡ sum_of (λ t. slice_index_or «of» t 0) 8 % 2 ^ 64 }
{
    let mut sum = 0u64;
    for x in &of {
        sum = sum.wrapping_add(*x);
    }
    sum
}
