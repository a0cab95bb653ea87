// One year more of a file.
ghost use Rattle.std.specs.Prelude.{◌≡◌, ℕ, ◌+◌, ◌*◌, ◌≤◌, ◌<◌, length, get_or};
ghost use Rattle.numbers.specs.Eight.{eight};
ghost use Rattle.record.specs.Fields.{record_bytes, deposit_of};
ghost use Rattle.carbon.specs.Carbon.{most_brought};
ghost use Rattle.tunisia.specs.Walk.{walked_on, walked_over, Ready, AllReady};

use record::Factors;
use reductions::{Stretch, Sums};
use std::array;

// Some years of a file, from its first on: how many, x0 of the last and T of the eight types after it in mg, and what those of the
// stretch add up to.
#[derive(Clone, Copy)]
pub struct Walked {
    pub n: u16,
    pub x0: u64,
    pub brought: [u64; 8],
    pub sums: Sums,
}

// Answers T of the eight types with the deposits of a record. The ledger has them too, but only after the last record of a stretch.
fn deposited(brought: [u64; 8], bytes: &[u8]) -> [u64; 8]
    requires { (t : ℕ) → (t < 8 → get_or brought t 0 + deposit_of bytes.now t ≤ most_brought) }
    ensures { result ≡ eight (λ t. get_or brought t 0 + deposit_of bytes.now t) }
{
    array::from_fn(|t| brought[t] + record::deposit(bytes, t as u8))
}

// Answers the years with one record more, whose x0 is known.
fn walk_on(walked: Walked, bytes: &[u8], x0: u64, stretch: Stretch) -> Walked
    requires { Ready walked bytes.now }
    ensures { result ≡ walked_on stretch.first stretch.last walked bytes.now x0 }
{
    let brought = walked.brought;
    let before = walked.sums;
    let sums = if stretch.contains(walked.n as u64 + 1) {
        reductions::with_year(
            before,
            Factors::of(bytes),
            walked.x0,
            figure::margins(walked.n, brought),
        )
    } else {
        before
    };
    Walked {
        n: walked.n + 1,
        x0,
        brought: deposited(brought, bytes),
        sums,
    }
}

// Answers the years with so many records more of a file, given their output records.
pub(crate) fn walk_over(
    walked: Walked,
    file: &[u8],
    out: &[u8],
    count: u64,
    stretch: Stretch,
) -> Walked
    requires count_in_bounds { (record_bytes * count ≤ length file.now) × (record_bytes * count ≤ length out.now) }
    requires all_ready { AllReady stretch.first stretch.last count walked file.now out.now }
    ensures { result ≡ walked_over stretch.first stretch.last count walked file.now out.now }
{
    let mut walked = walked;
    for place in 0..count as usize {
        let at = record::BYTES * place;
        let x0 = numbers::read::<8>(out, at + 8);
        let next = walk_on(walked, &file[at..at + record::BYTES], x0, stretch);
        walked = next;
    }
    walked
}
