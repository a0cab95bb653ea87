// A file run in stretches of 32 records, so that no caller has to lend an output buffer for all of it: 'One step' of document 01, its last
// paragraph. `columns` and `tunisia` call it, and the listing goes by parts of the same length. What a run looks up once is looked up once a stretch.
#![tactic(auto)]

ghost use Rattle.std.specs.Prelude.{◌≡◌, ◌≤◌, length, drop};
ghost use Rattle.run.specs.History.{outcome_of, out_of, whole_run};
ghost use Rattle.run.specs.Outcome.{outcome_numbers};
ghost use Rattle.stretches.specs.Stretches.{stretch_bytes, stretch_end, stretch_run};

use ledger::Ledger;
use run::RunEnd;

// The bytes of a stretch, and of its output records.
pub const STRETCH: usize = 32 * Ledger::BYTES;

// Answers where the stretch that starts at a place ends.
pub fn stretch_end(file: &[u8], at: usize) -> usize
    requires { at ≤ length file.now }
    ensures { result ≡ stretch_end (length file.now) at }
{
    if file.len() - at < STRETCH {
        return file.len();
    }
    at + STRETCH
}

// Runs the stretch of a file that starts at a place, and writes its output records at the start of the output.
pub fn run_stretch(ledger: Ledger, file: &[u8], at: usize, out: &mut [u8]) -> RunEnd
    requires at_in_bounds { at ≤ length file.now }
    requires out_len { length out.old ≡ stretch_bytes }
    ensures value { outcome_numbers result ≡ outcome_of (stretch_run ledger (drop at file.now)) }
    ensures out_after { out.new ≡ out_of (stretch_run ledger (drop at file.now)) out.old }
{
    let end = stretch_end(file, at);
    run::run(ledger, &file[at..end], out)
}

// Answers the ledger, the number of accepted records, the refusal and the decay work of a file that is run from a fresh ledger with
// room for every output record; the output records are not kept.
pub fn whole_run(file: &[u8]) -> RunEnd
    ensures { outcome_numbers result ≡ outcome_of (whole_run file.now) }
{
    let mut out = [0u8; STRETCH];
    let mut ledger = Ledger::fresh();
    let mut work: u64 = 0;
    for part in file.chunks(STRETCH) {
        let ran = run::run(ledger, part, &mut out);
        let next = ran.ledger;
        ledger = next;
        work += ran.work;
        if let Some(why) = ran.refusal {
            return RunEnd {
                ledger,
                accepted: ledger.n as u64,
                refusal: Some(why),
                work,
            };
        }
    }
    RunEnd {
        ledger,
        accepted: ledger.n as u64,
        refusal: None,
        work,
    }
}
