// The case of a reduction over years, as docs/CASES.md has it. It prints the line of its payload on standard output, and nothing for a
// payload that is too short for it; no contract can say what is printed. The program `cases` calls it.
#![tactic(auto)]

ghost use Rattle.std.specs.Prelude.{◌≡◌, ◌+◌, ◌-◌, ◌*◌, ◌^◌, ◌≤◌, ◌<◌, length};

use reductions::Stretch;
use std::array;
use tunisia::YearsReport;

// What comes before the grams: the first and the last year in 8 bytes each, and in 2 bytes each how many entries of electricity and of
// fuel are lent, and how many grams follow.
pub const HEAD: usize = 22;

// The most entries of one kind that are lent.
const ENTRIES: usize = 1300;

// Answers a number of entries, at most the most.
fn entries_of(asked: u64) -> usize
    ensures { result ≤ 1300 }
{
    asked.min(ENTRIES as u64) as usize
}

// Answers how many grams follow the head of a payload: as many as it says, or as there are.
fn grams_in(payload: &[u8]) -> usize
    requires { 22 ≤ length payload.now }
    ensures { 22 + 8 * result ≤ length payload.now }
{
    let there = (payload.len() - HEAD) / 8;
    there.min(numbers::read::<2>(payload, 20) as usize)
}

// Answers grams of a payload by their number: after the last comes the first again, and where there are none each is 0.
fn gram(payload: &[u8], grams: usize, number: usize) -> u64
    requires { 22 + 8 * grams ≤ length payload.now }
{
    if grams == 0 {
        return 0;
    }
    numbers::read::<8>(payload, HEAD + 8 * (number % grams))
}

// Answers entries that take the grams of a payload in turn, from a number on.
fn entries_from(payload: &[u8], grams: usize, from: usize) -> [u64; ENTRIES]
    requires { (22 + 8 * grams ≤ length payload.now) × (from ≤ 1300) }
{
    array::from_fn(|i| gram(payload, grams, from + i))
}

// Prints a signed number and a space.
fn put_signed(rt: &impl Print, z: i64) {
    if z < 0 {
        print::text(rt, b"-");
    }
    print::number(rt, z.unsigned_abs(), b' ');
}

// Prints an answer: a refused stretch has four zeros.
fn put_report(rt: &impl Print, report: YearsReport) {
    match report.amounts {
        Ok(all) => {
            print::number(rt, 0, b' ');
            print::number(rt, all.reference, b' ');
            print::number(rt, all.project, b' ');
            put_signed(rt, all.reduction);
            print::number(rt, all.bound, b' ');
        }
        Err(why) => {
            print::number(rt, why.number() as u64, b' ');
            for _ in 0..4 {
                print::number(rt, 0, b' ');
            }
        }
    }
    print::number(rt, report.years, b' ');
    print::number(rt, refusal::number_or_zero(report.refused) as u64, b'\n');
}

// Prints the reduction of a file over the years of a case.
pub fn reduction(rt: &impl Print, payload: &[u8])
    ensures { result ≡ tt }
{
    if payload.len() < HEAD {
        return;
    }
    let grams = grams_in(payload);
    let electricity_count = entries_of(numbers::read::<2>(payload, 16));
    let electricity = entries_from(payload, grams, 0);
    let fuel_count = entries_of(numbers::read::<2>(payload, 18));
    let fuel = entries_from(payload, grams, electricity_count);
    put_report(
        rt,
        tunisia::reduction_over(
            &payload[HEAD + 8 * grams..],
            Stretch {
                first: numbers::read::<8>(payload, 0),
                last: numbers::read::<8>(payload, 8),
            },
            &electricity[0..electricity_count],
            &fuel[0..fuel_count],
        ),
    );
}
