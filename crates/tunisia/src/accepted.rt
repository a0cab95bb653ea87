// The accepted years of a file: run by stretches of 32 records, and walked over.
ghost use Rattle.std.specs.Prelude.{◌≡◌, ◌*◌, ◌≤◌, ◌<◌, length, take};
ghost use Rattle.waste.specs.Kind.{is_monthly};
ghost use Rattle.record.specs.Fields.{record_bytes};
ghost use Rattle.carbon.specs.Carbon.{most_records};
ghost use Rattle.refusal.specs.Numbers.{numbered};
ghost use Rattle.ledger.specs.Step.{fresh};
ghost use Rattle.ledger.specs.Refusal.{refusal_of};
ghost use Rattle.run.specs.History.{whole_run};
ghost use Rattle.tunisia.specs.Years.{accepted_years, refusal_after};
ghost use Rattle.tunisia.specs.Walk.{taken_over, SumsFit, as_yearly};
ghost use Rattle.tunisia.specs.Taken.{taken_numbers};

use crate::year::{Walked, walk_over};
use ledger::Ledger;
use reductions::{Stretch, Sums};
use refusal::Refusal;
use waste::Kind;

// What the years of the stretch add up to, how many years were accepted, and the refusal of the record after them, if any.
#[derive(Clone, Copy)]
pub struct Taken {
    pub sums: Sums,
    pub years: u64,
    pub refused: Option<Refusal>,
}

// Tells whether a code is that of a monthly record.
#[tactic(auto, using(std::proofs::lemmas::Bool::Decides::nat_tests))]
fn is_monthly(kind: u8) -> bool
    ensures { result ≡ is_monthly kind }
{
    Kind::of(kind) == Some(Kind::Monthly)
}

// Answers the refusal of a record in this mode, given its refusal in a run with room for its output, and whether it is monthly. The
// tests before 6 have the numbers up to 5; by the enum's order 28 would be one of them too.
#[tactic(auto, using(refusal::proofs::Numbers::number_not_zero), unfolding(crate::specs::Walk::as_yearly))]
fn as_yearly(refusal: Option<Refusal>, monthly: bool) -> Option<Refusal>
    ensures { numbered result ≡ as_yearly (numbered refusal) monthly }
{
    let Some(why) = refusal else {
        return monthly.then_some(Refusal::MonthlyRecord);
    };
    if monthly && why.number() > 5 {
        return Some(Refusal::MonthlyRecord);
    }
    Some(why)
}

// Runs a file from a fresh ledger, stretch by stretch, and walks over the accepted records; the refusal is the run's.
fn run_years(file: &[u8], stretch: Stretch) -> Taken
    ensures value { taken_numbers result ≡ taken_over stretch.first stretch.last (whole_run file.now).accepted (whole_run file.now).refusal }
    ensures sums_fit { (SumsFit result.sums) × (record_bytes * result.years ≤ length file.now) × (result.years ≤ most_records) }
{
    let mut out = [0u8; stretches::STRETCH];
    let mut ledger = Ledger::fresh();
    let mut walked = Walked {
        n: 0,
        x0: 0,
        brought: [0; 8],
        sums: Sums::default(),
    };
    let mut at: usize = 0;
    // no range: the next place is the end of a stretch
    while at < file.len() {
        let ran = stretches::run_stretch(ledger, file, at, &mut out);
        let end = stretches::stretch_end(file, at);
        let on = walk_over(walked, &file[at..end], &out, ran.accepted, stretch);
        walked = on;
        if let Some(why) = ran.refusal {
            return Taken {
                sums: on.sums,
                years: on.n as u64,
                refused: Some(why),
            };
        }
        let next = ran.ledger;
        ledger = next;
        at = end;
    }
    Taken {
        sums: walked.sums,
        years: walked.n as u64,
        refused: None,
    }
}

// Answers the refusal of the first record of a file in a run from a fresh ledger.
fn first_refusal(file: &[u8]) -> Option<Refusal>
    requires { 0 < length file.now }
    ensures { numbered result ≡ refusal_of fresh (take record_bytes file.now) record_bytes }
{
    let end = record::BYTES.min(file.len());
    run_years(&file[..end], Stretch { first: 1, last: 0 }).refused
}

// Answers the accepted years of a file, none where its first record is monthly, and what those of the stretch add up to.
pub(crate) fn accepted_years(file: &[u8], stretch: Stretch) -> Taken
    ensures value { taken_numbers result ≡ taken_over stretch.first stretch.last (accepted_years file.now) (refusal_after file.now) }
    ensures sums_fit { (SumsFit result.sums) × (result.years ≤ most_records) }
{
    let kind = record::kind(file);
    if is_monthly(kind) {
        return Taken {
            sums: Sums::default(),
            years: 0,
            refused: as_yearly(first_refusal(file), true),
        };
    }
    let ran = run_years(file, stretch);
    let next = record::kind(&file[record::BYTES * ran.years as usize..]);
    let next_monthly = is_monthly(next);
    Taken {
        refused: as_yearly(ran.refused, next_monthly),
        ..ran
    }
}
