// The slots of a buffer of yearly totals, one for each year of a monthly ledger: request l of document 02. `yearly_totals` calls it, with
// the number n of months before a record, whose period is then n + 1.
#![tactic(auto)]

ghost use Rattle.std.specs.Prelude.{◌≡◌, ◌+◌, ◌*◌, ◌^◌, ◌≤◌, ◌<◌, length};
ghost use Rattle.std.proofs.lemmas.List.Edits.{sets};
ghost use Rattle.record.specs.Fields.{record_bytes};
ghost use Rattle.carbon.specs.Carbon.{most_records};
ghost use Rattle.year_slots.specs.Slots.{slot_size, slot_count, slot_of, slot_at, slot_row, added_to, any_above, differs};
ghost use Rattle.year_slots.specs.Months.{month_added, MonthFits, months_added, MonthsFit};

// The bytes of a slot, and of a buffer of a hundred slots.
const SLOT: usize = 32;

pub const BYTES: usize = SLOT * 100;

// A buffer of totals.
pub type Totals = [u8; BYTES];

// The months of a year.
pub const MONTHS: u16 = 12;

// The largest sum to which a month is added.
const SUM_LIMIT: u64 = 10000000000000000000;

// A year's number, the months counted, and what they add up to: x0 in mg, figure and bound in grams CO2e.
#[derive(Clone, Copy, Debug, Default, PartialEq, Eq)]
pub struct Slot {
    pub year: u64,
    pub months: u64,
    pub x0: u64,
    pub figure: u64,
    pub bound: u64,
}

// Answers slot k.
pub fn read(totals: &Totals, k: usize) -> Slot
    requires { k < slot_count }
    ensures { (result ≡ slot_at totals.now k) × (result.months < 2 ^ 32) }
{
    let at = SLOT * k;
    Slot {
        year: numbers::read::<4>(totals, at),
        months: numbers::read::<4>(totals, at + 4),
        x0: numbers::read::<8>(totals, at + 8),
        figure: numbers::read::<8>(totals, at + 16),
        bound: numbers::read::<8>(totals, at + 24),
    }
}

// Writes slot k.
fn write(totals: &mut Totals, k: usize, slot: Slot)
    requires { k < slot_count }
    ensures { totals.new ≡ sets totals.old (slot_size * k) (slot_row slot) }
{
    let at = SLOT * k;
    numbers::write::<4>(totals, at, slot.year);
    numbers::write::<4>(totals, at + 4, slot.months);
    numbers::write::<8>(totals, at + 8, slot.x0);
    numbers::write::<8>(totals, at + 16, slot.figure);
    numbers::write::<8>(totals, at + 24, slot.bound);
}

// Tells whether a sum of a slot is above the limit.
#[tactic(auto, unfolding(crate::specs::Slots::any_above))]
fn is_above(slot: Slot) -> bool
    ensures { result ≡ any_above slot }
{
    (slot.x0 > SUM_LIMIT) | (slot.figure > SUM_LIMIT) | (slot.bound > SUM_LIMIT)
}

// Tells whether the slot of the month after n refuses it.
pub fn is_other(totals: &Totals, n: u16) -> bool
    requires { n < most_records }
    ensures { result ≡ differs totals.now (n + 1) }
{
    let k = n / MONTHS;
    let slot = read(totals, k as usize);
    if (slot.months != (n % MONTHS) as u64) | is_above(slot) {
        return true;
    }
    if slot.months == 0 {
        return slot != Slot::default();
    }
    slot.year != k as u64 + 1
}

// Adds the month after n to its slot, with x0, figure and bound as its output record says.
fn add(totals: &mut Totals, n: u16, out: &[u8])
    requires n_lt_most_records { (n < most_records) × (record_bytes ≤ length out.now) }
    requires month_fits { MonthFits (slot_at totals.old (slot_of (n + 1))) out.now }
    ensures { totals.new ≡ month_added totals.old n out.now }
{
    let k = n / MONTHS;
    let slot = read(totals, k as usize);
    let more = Slot {
        year: k as u64 + 1,
        months: slot.months + 1,
        x0: slot.x0 + numbers::read::<8>(out, 8),
        figure: slot.figure + numbers::read::<8>(out, 16),
        bound: slot.bound + numbers::read::<8>(out, 24),
    };
    write(totals, k as usize, more);
}

// Adds so many months after n to their slots, from their output records.
pub fn add_months(totals: &mut Totals, n: u16, out: &[u8], count: u64)
    requires count_bound { (n + count ≤ most_records) × (record_bytes * count ≤ length out.now) }
    requires months_fit { MonthsFit count totals.old n out.now }
    ensures { totals.new ≡ months_added count totals.old n out.now }
{
    for month in 0..count {
        let at = record::BYTES * month as usize;
        add(totals, n + month as u16, &out[at..]);
    }
}
