// The cases of yearly totals, as docs/CASES.md has them: a step and a run. Each prints the line of its payload on standard output, and
// nothing for a payload that is too short for it; no contract can say what is printed. The program `cases` calls them.
#![tactic(auto)]

ghost use Rattle.std.specs.Prelude.{◌≡◌, ◌≤◌, length};

// What comes before the totals of a step, and of a run: the image, the room in 2 bytes or in 4, and in 2 bytes each the length of the
// buffer of totals and how many of its bytes follow.
pub const STEP_HEAD: usize = image::BYTES + 6;

pub const RUN_HEAD: usize = image::BYTES + 8;

// Answers where the totals end in a payload: after as many bytes as its head says, or at the end where there are fewer.
fn totals_end(payload: &[u8], head: usize) -> usize
    requires { (2 ≤ head) × (head ≤ length payload.now) }
    ensures { (head ≤ result) × (result ≤ length payload.now) }
{
    let given = numbers::read::<2>(payload, head - 2) as usize;
    head + given.min(payload.len() - head)
}

// Fills a buffer with the bytes that are given, and with zeros after them.
fn fill(totals: &mut [u8], given: &[u8]) {
    for (i, byte) in totals.iter_mut().enumerate() {
        *byte = given.get(i).copied().unwrap_or(0);
    }
}

// Answers how many bytes there are without the zeros at the end.
fn used(totals: &[u8]) -> usize
    ensures { result ≤ length totals.now }
{
    totals
        .iter()
        .rposition(|byte| *byte != 0)
        .map_or(0, |last| last + 1)
}

// Prints the buffers that were lent, the last words of a line.
fn put_lent(rt: &impl Print, out: &[u8], totals: &[u8]) {
    print::bytes(rt, out, b' ');
    let end = used(totals);
    print::bytes(rt, &totals[0..end], b'\n');
}

// Prints one step, with the room and the totals that the case asks for.
pub fn step(rt: &impl Print, payload: &[u8])
    ensures { result ≡ tt }
{
    if payload.len() < STEP_HEAD {
        return;
    }
    let mut out = print::buffer();
    let mut buffer = print::buffer();
    let room = numbers::read::<2>(payload, image::BYTES) as usize;
    let size = numbers::read::<2>(payload, image::BYTES + 2) as usize;
    let end = totals_end(payload, STEP_HEAD);
    let lent = &mut out[0..room];
    let totals = &mut buffer[0..size];
    fill(totals, &payload[STEP_HEAD..end]);
    let ledger = ledger_cases::ledger_of(payload);
    let answer = yearly_totals::take_month(ledger, totals, &payload[end..], lent);
    ledger_cases::put_answer(rt, ledger, answer);
    put_lent(rt, lent, totals);
}

// Prints a whole run, with the room and the totals that the case asks for.
pub fn run(rt: &impl Print, payload: &[u8])
    ensures { result ≡ tt }
{
    if payload.len() < RUN_HEAD {
        return;
    }
    let mut out = print::buffer();
    let mut buffer = print::buffer();
    let room = print::room_of(numbers::read::<4>(payload, image::BYTES));
    let size = numbers::read::<2>(payload, image::BYTES + 4) as usize;
    let end = totals_end(payload, RUN_HEAD);
    let lent = &mut out[0..room];
    let totals = &mut buffer[0..size];
    fill(totals, &payload[RUN_HEAD..end]);
    let ledger = ledger_cases::ledger_of(payload);
    let end_of_run = yearly_totals::run_months(ledger, totals, &payload[end..], lent);
    ledger_cases::put_outcome(rt, end_of_run);
    put_lent(rt, lent, totals);
}
