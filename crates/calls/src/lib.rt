// What a call makes of the buffers that are lent to it: one record, or a file of them, from image to image. The entries for C
// hand their buffers over to it: 'One step' of document 01, and its last paragraph.
#![tactic(auto)]

ghost use Rattle.std.specs.Prelude.{◌≡◌, length};
ghost use Rattle.refusal.specs.Numbers.{numbered};
ghost use Rattle.ledger.specs.declared.book.Ledger.{Ledger};
ghost use Rattle.ledger.specs.Take.{take_of, written_of};
ghost use Rattle.ledger.specs.Numbers.{answer_numbers};
ghost use Rattle.run.specs.History.{out_of, work_over};
ghost use Rattle.run.specs.Outcome.{outcome_numbers};
ghost use Rattle.calls.specs.Calls.{answered, image_over, ended_over, room_of, take_here, take_image, take_out, take_answer, run_here, run_image};

use ledger::{Ledger, Taken};
use refusal::Refusal;
use run::RunEnd;

// The bytes of an answer.
const ANSWER_BYTES: usize = 88;

// Writes the eight releases, x0, figure and bound of an accepted record, and zeros for a refused one. A buffer under 88 bytes keeps
// its values.
pub fn write_answer(out: &mut [u8], taken: Result<Taken, Refusal>)
    ensures { (l : Ledger) → out.new ≡ answered (answer_numbers l taken) out.old }
{
    if out.len() < ANSWER_BYTES {
        return;
    }
    match taken {
        Ok(taken) => {
            let releases = taken.releases;
            numbers::write_eight(out, 0, releases);
            numbers::write::<8>(out, 64, taken.x0);
            numbers::write::<8>(out, 72, taken.figure);
            numbers::write::<8>(out, 80, taken.bound);
        }
        Err(_) => out[..ANSWER_BYTES].copy_from_slice(&[0; ANSWER_BYTES]),
    }
}

// Answers the room for the output record: none where the answer has no room.
pub fn room(out: usize, answer: usize) -> usize
    ensures { result ≡ room_of out answer }
{
    if answer < ANSWER_BYTES { 0 } else { out }
}

// Takes one record as a run of one record, so that the step's code is in a program once.
fn take_one(ledger: Ledger, bytes: &[u8], out: &mut [u8]) -> Result<Taken, Refusal>
    ensures value { answer_numbers ledger result ≡ take_of ledger bytes.now (length out.old) }
    ensures out_after { out.new ≡ written_of ledger bytes.now out.old }
{
    if bytes.len() != Ledger::BYTES {
        return Err(Refusal::RecordLength);
    }
    let end = run::run(ledger, bytes, out);
    end.taken(ledger, out)
}

// Keeps what a step of one record made, by month or by year: writes the image of the ledger and the answer, or answers the refusal's
// number.
pub fn keep(image: &mut [u8], answer: &mut [u8], taken: Result<Taken, Refusal>) -> u8
    ensures value { (l : Ledger) → result ≡ (answer_numbers l taken).refusal }
    ensures image_after { (l : Ledger) → image.new ≡ image_over (answer_numbers l taken) image.old }
    ensures answer_after { (l : Ledger) → answer.new ≡ answered (answer_numbers l taken) answer.old }
{
    if let Ok(kept) = taken {
        image::write(image, kept.ledger);
    }
    write_answer(answer, taken);
    refusal::number_or_zero(taken.err())
}

// Keeps the end of a run, with yearly totals or without: writes how many records were accepted, their decay work, and the image of the
// ledger where there are any; answers the refusal's number, 0 if none.
pub fn end_run(image: &mut [u8], accepted: &mut u64, work: &mut u64, end: RunEnd) -> u8
    ensures value { result ≡ (outcome_numbers end).refusal }
    ensures image_after { image.new ≡ ended_over (outcome_numbers end) image.old }
    ensures accepted_after { accepted.new ≡ end.accepted }
    ensures work_after { work.new ≡ end.work }
{
    *accepted = end.accepted;
    *work = end.work;
    if end.accepted > 0 {
        image::write(image, end.ledger);
    }
    refusal::number_or_zero(end.refusal)
}

// Takes one record: the image, the output and the answer are written, or the refusal's number comes back.
pub fn take(image: &mut [u8], record: &[u8], out: &mut [u8], answer: &mut [u8]) -> u8
    ensures value { result ≡ (take_here image.old «record».now out.old answer.old).refusal }
    ensures image_after { image.new ≡ take_image image.old «record».now out.old answer.old }
    ensures out_after { out.new ≡ take_out image.old «record».now out.old answer.old }
    ensures answer_after { answer.new ≡ take_answer image.old «record».now out.old answer.old }
{
    let room = room(out.len(), answer.len());
    let taken = take_one(image::read(image), record, &mut out[..room]);
    keep(image, answer, taken)
}

// Takes the records of a file one after another, writes an output record for each accepted one, and leaves the image of the
// ledger after the last of them; answers the refusal of the next one, 0 if none, how many were accepted, and their decay work.
pub fn run(
    image: &mut [u8],
    records: &[u8],
    out: &mut [u8],
    accepted: &mut u64,
    work: &mut u64,
) -> u8
    ensures value { result ≡ (run_here image.old records.now (length out.old)).refusal }
    ensures image_after { image.new ≡ run_image image.old (run_here image.old records.now (length out.old)) }
    ensures out_after { out.new ≡ out_of (run_here image.old records.now (length out.old)) out.old }
    ensures accepted_after { accepted.new ≡ length (run_here image.old records.now (length out.old)).accepted }
    ensures work_after { work.new ≡ work_over (run_here image.old records.now (length out.old)).accepted }
{
    let end = run::run(image::read(image), records, out);
    end_run(image, accepted, work, end)
}
