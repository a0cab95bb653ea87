// Whole runs: 'One step' of document 01, its last paragraph, and request h of document 02. A file of records is taken one after
// another, from any ledger.
#![tactic(auto)]

ghost use Rattle.std.specs.Prelude.{true, ℕ, ◌≡◌, ◌<◌, ◌≤◌, length, take};
ghost use Rattle.numbers.specs.Eight.{eight};
ghost use Rattle.record.specs.Fields.{record_bytes, kind_of, climate_of};
ghost use Rattle.carbon.specs.Carbon.{entry_at};
ghost use Rattle.ledger.specs.Step.{released_at};
ghost use Rattle.ledger.specs.Refusal.{sound, refusal_of};
ghost use Rattle.run.specs.History.{records_of, run_of, outcome_of, out_of};
ghost use Rattle.run.specs.Outcome.{outcome_numbers, one_answer};
ghost use Rattle.ledger.specs.Numbers.{answer_numbers};
ghost use Rattle.refusal.specs.Numbers.{numbered};

use ledger::{Ledger, Taken};
use refusal::Refusal;

// The ledger after the last accepted record, how many records were accepted, the refusal of the next one, if any, and the decay
// work of the accepted ones.
#[derive(Clone, Copy)]
pub struct RunEnd {
    pub ledger: Ledger,
    pub accepted: u64,
    pub refusal: Option<Refusal>,
    pub work: u64,
}

impl RunEnd {
    // Answers what a run of one record from a ledger makes of the record: its releases are what was released since, and x0, figure and
    // bound are read back from its output record. So the step's code is in a program once.
    pub fn taken(self, before: Ledger, out: &[u8]) -> Result<Taken, Refusal>
        requires out_value { numbered self.refusal ≡ 0 → 32 ≤ length out.now }
        requires released_value { numbered self.refusal ≡ 0 → (t : ℕ) → t < 8 → released_at before t ≤ released_at self.ledger t }
        ensures { answer_numbers before result ≡ one_answer before (outcome_numbers self) out.now }
    {
        if let Some(why) = self.refusal {
            return Err(why);
        }
        let RunEnd { ledger, .. } = self;
        Ok(Taken {
            ledger,
            releases: carbon::less(ledger.released, before.released),
            x0: numbers::read::<8>(out, 8),
            figure: numbers::read::<8>(out, 16),
            bound: numbers::read::<8>(out, 24),
        })
    }
}

// Answers the table entries of a run: those of its first record, which every later accepted record shares.
fn run_entries(ledger: Ledger, records: &[u8]) -> [u32; 8]
    ensures { refusal_of ledger (take record_bytes records.now) record_bytes ≡ 0
        → result ≡ eight (entry_at (kind_of (take record_bytes records.now)) (climate_of (take record_bytes records.now))) }
{
    if ledger.n > 0 {
        return carbon::entries(ledger.kind, ledger.climate);
    }
    carbon::entries(record::kind(records), record::climate(records))
}

// Answers a ledger again at the end of a run, with what each type has released worked out: T less R, which it is in a sound ledger,
// and as before the run where no record was accepted. So the compiled loop of a run has nothing to carry for it.
fn settled(ledger: Ledger, before: [u64; 8], accepted: u64) -> Ledger
    requires released_value { accepted ≡ 0 → ledger.released ≡ before }
    requires ledger_value { (accepted ≡ 0 → ⊥) → (sound ledger ≡ true) × (ledger.released ≡ eight (released_at ledger)) }
    ensures { result ≡ ledger }
{
    let released = if accepted == 0 {
        before
    } else {
        carbon::less(ledger.brought, ledger.stock)
    };
    Ledger { released, ..ledger }
}

// Takes the records of a file one after another, writes the output record of each accepted one after the last, and stops at
// the first that is refused; bytes left over that make no record are refused with 1. Also counts the decay work.
pub fn run(ledger: Ledger, records: &[u8], out: &mut [u8]) -> RunEnd
    ensures value { outcome_numbers result ≡ outcome_of (run_of ledger (records_of records.now) (length out.old)) }
    ensures out_after { out.new ≡ out_of (run_of ledger (records_of records.now) (length out.old)) out.old }
{
    let good = ledger.is_sound();
    let entries = run_entries(ledger, records);
    let reach = refusal::reach(records.len(), out.len());
    let first = ledger.n;
    let before = ledger.released;
    let mut ledger = ledger;
    let mut at: usize = 0;
    let mut work: u64 = 0;
    let (accepted, refusal) = 'records: loop {
        if at >= reach {
            let left = refusal::left_over(records.len() - at);
            break 'records ((ledger.n - first) as u64, left);
        }
        let bytes = &records[at..at + Ledger::BYTES];
        let early = refusal::early(
            ledger.n,
            ledger.kind,
            ledger.climate,
            ledger.year,
            good,
            bytes,
            Ledger::BYTES,
        );
        if let Some(why) = early {
            break 'records ((ledger.n - first) as u64, Some(why));
        }
        for t in 0..8u8 {
            if !record::is_light(bytes, t) {
                break 'records ((ledger.n - first) as u64, Some(Refusal::MassOverLimit));
            }
        }
        let entered = ledger.enter(entries, bytes, &mut out[at..at + Ledger::BYTES]);
        ledger = entered.ledger;
        work += entered.work;
        at += Ledger::BYTES;
    };
    RunEnd {
        ledger: settled(ledger, before, accepted),
        accepted,
        refusal,
        work,
    }
}
