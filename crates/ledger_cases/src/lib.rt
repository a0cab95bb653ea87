// The cases of the ledger, as docs/CASES.md has them: look-up, step, run and listing. Each prints the line of its payload on
// standard output, and nothing for a payload that is too short for it; no contract can say what is printed. The program `cases`
// calls them.
#![tactic(auto)]

ghost use Rattle.std.specs.Prelude.{◌≡◌, ◌≤◌, length, take};
ghost use Rattle.image.specs.Image.{image_bytes, ledger_of};

use ledger::{Ledger, Taken};
use refusal::Refusal;
use run::RunEnd;

// What stands ahead of a step's record, and of a run's records: the image, and the room in 2 bytes or in 4.
pub const STEP_HEAD: usize = image::BYTES + 2;

pub const RUN_HEAD: usize = image::BYTES + 4;

// Prints the entry of a rate.
pub fn decay(rt: &impl Print, payload: &[u8])
    ensures { result ≡ tt }
{
    let [kind, low, high, ..] = payload else {
        return;
    };
    let entry = decay::entry(*kind, u16::from_le_bytes([*low, *high]));
    print::number(rt, entry as u64, b'\n');
}

// Answers the ledger of a payload, whose image stands first.
pub fn ledger_of(payload: &[u8]) -> Ledger
    requires { image_bytes ≤ length payload.now }
    ensures { result ≡ ledger_of (take image_bytes payload.now) }
{
    image::read(&payload[0..image::BYTES])
}

// Prints the 30 numbers of a ledger with a space after each.
fn put_ledger(rt: &impl Print, ledger: Ledger) {
    let year = ledger.year;
    let numbers = [
        ledger.n as u64,
        ledger.kind as u64,
        ledger.climate as u64,
        year.factor as u64,
        year.class as u64,
        year.captured as u64,
    ];
    print::spaced(rt, &numbers);
    print::spaced(rt, &ledger.brought);
    print::spaced(rt, &ledger.stock);
    print::spaced(rt, &ledger.released);
}

// Answers what a step says that took nothing.
fn nothing_taken(ledger: Ledger) -> Taken {
    Taken {
        ledger,
        releases: [0; 8],
        x0: 0,
        figure: 0,
        bound: 0,
    }
}

// Prints the numbers of a step's answer with a space after each; of a refused one the ledger before it and zeros.
pub fn put_answer(rt: &impl Print, before: Ledger, answer: Result<Taken, Refusal>)
    ensures { result ≡ tt }
{
    let (refusal, taken) = match answer {
        Ok(taken) => (0, taken),
        Err(why) => (why.number(), nothing_taken(before)),
    };
    print::number(rt, refusal as u64, b' ');
    put_ledger(rt, taken.ledger);
    print::spaced(rt, &taken.releases);
    print::spaced(rt, &[taken.x0, taken.figure, taken.bound]);
}

// Prints one step, with the room that the case asks for.
pub fn step(rt: &impl Print, payload: &[u8])
    ensures { result ≡ tt }
{
    if payload.len() < STEP_HEAD {
        return;
    }
    let mut out = print::buffer();
    let room = numbers::read::<2>(payload, image::BYTES) as usize;
    let lent = &mut out[0..room];
    let ledger = ledger_of(payload);
    let answer = ledger.take(&payload[STEP_HEAD..], lent);
    put_answer(rt, ledger, answer);
    print::bytes(rt, lent, b'\n');
}

// Prints the numbers of a run's end with a space after each.
pub fn put_outcome(rt: &impl Print, end: RunEnd)
    ensures { result ≡ tt }
{
    let refusal = refusal::number_or_zero(end.refusal);
    print::spaced(rt, &[end.accepted, refusal as u64, end.work]);
    put_ledger(rt, end.ledger);
}

// Prints a whole run, with the room that the case asks for.
pub fn run(rt: &impl Print, payload: &[u8])
    ensures { result ≡ tt }
{
    if payload.len() < RUN_HEAD {
        return;
    }
    let mut out = print::buffer();
    let room = print::room_of(numbers::read::<4>(payload, image::BYTES));
    let lent = &mut out[0..room];
    let end = run::run(ledger_of(payload), &payload[RUN_HEAD..], lent);
    put_outcome(rt, end);
    print::bytes(rt, lent, b'\n');
}

// Prints the listing of a file; the text has room for any.
pub fn listing(rt: &impl Print, payload: &[u8])
    ensures { result ≡ tt }
{
    let mut text = [0u8; lines::TEXT];
    if let Ok(length) = lines::listing(payload, &mut text) {
        print::bytes(rt, &text[..length], b'\n');
    }
}
