// Yearly totals beside a monthly run: request l of document 02. A package that records by month and reports by year calls `take_month` or
// `run_months` for all records of a site, and keeps the buffer of totals with the ledger.
#![tactic(auto)]

mod year;

ghost use Rattle.std.specs.Prelude.{◌≡◌, length};
ghost use Rattle.ledger.specs.Numbers.{answer_numbers};
ghost use Rattle.run.specs.History.{records_of, outcome_of, out_of};
ghost use Rattle.run.specs.Outcome.{outcome_numbers};
ghost use Rattle.yearly_totals.specs.Months.{take_month_of, month_totals, written_month, totals_after, month_run_of};

use ledger::{Ledger, Taken};
use refusal::Refusal;
use run::RunEnd;
use year::run_year;
use year_slots::Totals;

// Takes the records of a file one after another, with a buffer of totals.
fn run_file(ledger: Ledger, totals: &mut Totals, records: &[u8], out: &mut [u8]) -> RunEnd
    ensures value { outcome_numbers result ≡ outcome_of (month_run_of ledger totals.old (records_of records.now) (length out.old)) }
    ensures totals_after { totals.new ≡ totals_after totals.old (month_run_of ledger totals.old (records_of records.now) (length out.old)).accepted }
    ensures out_after { out.new ≡ out_of (month_run_of ledger totals.old (records_of records.now) (length out.old)) out.old }
{
    let mut ledger = ledger;
    let mut at: usize = 0;
    let mut accepted: u64 = 0;
    let mut work: u64 = 0;
    // no range: the next place is as far on as the year's run accepted
    while at < records.len() {
        let ran = run_year(ledger, totals, &records[at..], &mut out[at..]);
        let next = ran.ledger;
        ledger = next;
        at += record::BYTES * ran.accepted as usize;
        accepted += ran.accepted;
        work += ran.work;
        if let Some(why) = ran.refusal {
            return RunEnd {
                ledger,
                accepted,
                refusal: Some(why),
                work,
            };
        }
    }
    RunEnd {
        ledger,
        accepted,
        refusal: None,
        work,
    }
}

// Takes the records of a file one after another, adds each accepted one to its year's slot and writes its output record after the last, and
// stops at the first that is refused; a buffer of totals that is not 3200 bytes is refused. Also counts the decay work.
pub fn run_months(ledger: Ledger, totals: &mut [u8], records: &[u8], out: &mut [u8]) -> RunEnd
    ensures value { outcome_numbers result ≡ outcome_of (month_run_of ledger totals.old (records_of records.now) (length out.old)) }
    ensures totals_after { totals.new ≡ totals_after totals.old (month_run_of ledger totals.old (records_of records.now) (length out.old)).accepted }
    ensures out_after { out.new ≡ out_of (month_run_of ledger totals.old (records_of records.now) (length out.old)) out.old }
{
    let Some(totals) = totals.as_mut_array::<{ year_slots::BYTES }>() else {
        return RunEnd {
            ledger,
            accepted: 0,
            refusal: Some(Refusal::TotalsLength),
            work: 0,
        };
    };
    run_file(ledger, totals, records, out)
}

// Takes one monthly record: answers the ledger after it, its releases, figure and bound, adds it to its year's slot, and writes its output
// record at the start of the output; or refuses it, and leaves the ledger, the totals and the output as they are.
pub fn take_month(
    ledger: Ledger,
    totals: &mut [u8],
    bytes: &[u8],
    out: &mut [u8],
) -> Result<Taken, Refusal>
    ensures value { answer_numbers ledger result ≡ take_month_of ledger totals.old bytes.now (length out.old) }
    ensures totals_after { totals.new ≡ month_totals ledger totals.old bytes.now (length out.old) }
    ensures out_after { out.new ≡ written_month ledger totals.old bytes.now out.old }
{
    if totals.len() != year_slots::BYTES {
        return Err(Refusal::TotalsLength);
    }
    if bytes.len() != Ledger::BYTES {
        return Err(Refusal::RecordLength);
    }
    let end = run_months(ledger, totals, bytes, out);
    end.taken(ledger, out)
}
