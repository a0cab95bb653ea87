// The records of a year, run as a plain file.
ghost use Rattle.std.specs.Prelude.{◌≡◌, ◌≤◌, ◌<◌, length, take};
ghost use Rattle.waste.specs.Kind.{is_yearly};
ghost use Rattle.record.specs.Fields.{record_bytes};
ghost use Rattle.carbon.specs.Carbon.{most_records};
ghost use Rattle.ledger.specs.Refusal.{refusal_of};
ghost use Rattle.refusal.specs.Numbers.{numbered};
ghost use Rattle.run.specs.History.{outcome_of, out_of};
ghost use Rattle.run.specs.Outcome.{outcome_numbers};
ghost use Rattle.yearly_totals.specs.Months.{totals_after};
ghost use Rattle.yearly_totals.specs.YearRun.{as_monthly, slot_refuses, at_once, year_run};

use ledger::Ledger;
use refusal::Refusal;
use run::RunEnd;
use waste::Kind;
use year_slots::{MONTHS, Totals};

// Up to here no month of a year brings a sum above the limit.
const SMALL_SUM: u64 = 7000000000000000000;

// Tells whether a code is that of a yearly record.
#[tactic(auto, using(std::proofs::lemmas::Bool::Decides::nat_tests))]
fn is_yearly(kind: u8) -> bool
    ensures { result ≡ is_yearly kind }
{
    Kind::of(kind) == Some(Kind::Yearly)
}

// Answers the refusal of a record, given its refusal by the plain step, whether it is yearly, and whether its slot refuses it. The
// tests before 6 have the numbers up to 5; by the enum's order 28 would be one of them too.
#[tactic(auto, using(refusal::proofs::Numbers::number_not_zero), unfolding(crate::specs::YearRun::as_monthly))]
fn as_monthly(refusal: Option<Refusal>, yearly: bool, differs: bool) -> Option<Refusal>
    ensures { numbered result ≡ as_monthly (numbered refusal) yearly differs }
{
    let Some(why) = refusal else {
        if yearly {
            return Some(Refusal::YearlyRecord);
        }
        return differs.then_some(Refusal::DamagedTotals);
    };
    if yearly && why.number() > 5 {
        return Some(Refusal::YearlyRecord);
    }
    Some(why)
}

// Tells whether the slot of the month after n refuses it; a ledger that is full has no such slot.
fn slot_refuses(totals: &Totals, n: u16) -> bool
    ensures { result ≡ slot_refuses totals.now n }
{
    if n >= Ledger::RECORDS {
        return true;
    }
    year_slots::is_other(totals, n)
}

// Answers how many records are run at once after n: the rest of the year, or one where a sum is large.
fn at_once(totals: &Totals, n: u16) -> usize
    requires { n < most_records }
    ensures { (result ≡ at_once totals.now n) × (result ≤ 12) }
{
    let slot = year_slots::read(totals, (n / MONTHS) as usize);
    if (slot.x0 <= SMALL_SUM) & (slot.figure <= SMALL_SUM) & (slot.bound <= SMALL_SUM) {
        return (MONTHS - n % MONTHS) as usize;
    }
    1
}

// Answers the refusal of the first record of a file by the plain step, with so much room for its output record.
fn first_refusal(ledger: Ledger, records: &[u8], room: usize) -> Option<Refusal>
    requires { 0 < length records.now }
    ensures { numbered result ≡ refusal_of ledger (take record_bytes records.now) room }
{
    let mut spare = [0u8; record::BYTES];
    let size = record::BYTES.min(records.len());
    let lent = record::BYTES.min(room);
    run::run(ledger, &records[..size], &mut spare[..lent]).refusal
}

// Runs the records of a file up to the end of a year, or refuses the first one.
pub(crate) fn run_year(
    ledger: Ledger,
    totals: &mut Totals,
    records: &[u8],
    out: &mut [u8],
) -> RunEnd
    requires { 0 < length records.now }
    ensures value { outcome_numbers result ≡ outcome_of (year_run ledger totals.old records.now (length out.old)) }
    ensures totals_after { totals.new ≡ totals_after totals.old (year_run ledger totals.old records.now (length out.old)).accepted }
    ensures out_after { out.new ≡ out_of (year_run ledger totals.old records.now (length out.old)) out.old }
{
    let n = ledger.n;
    let kind = record::kind(records);
    let yearly = is_yearly(kind);
    let refuses = slot_refuses(totals, n);
    if refuses | yearly {
        let refusal = first_refusal(ledger, records, out.len());
        return RunEnd {
            ledger,
            accepted: 0,
            refusal: as_monthly(refusal, yearly, refuses),
            work: 0,
        };
    }
    let most = record::BYTES * at_once(totals, n);
    let end = most.min(records.len());
    let part = &records[..end];
    let ran = run::run(ledger, part, out);
    year_slots::add_months(totals, n, out, ran.accepted);
    let next = record::kind(&part[record::BYTES * ran.accepted as usize..]);
    let next_yearly = is_yearly(next);
    RunEnd {
        refusal: as_monthly(ran.refusal, next_yearly, false),
        ..ran
    }
}
