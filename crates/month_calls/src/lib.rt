// What a call with yearly totals makes of the buffers that are lent to it, from image to image: request l of document 02. The entries for C
// hand their buffers over to it.
#![tactic(auto)]

ghost use Rattle.std.specs.Prelude.{◌≡◌, length};
ghost use Rattle.run.specs.History.{out_of, work_over};
ghost use Rattle.calls.specs.Calls.{answered, image_then, out_then, run_image};
ghost use Rattle.yearly_totals.specs.Months.{totals_after};
ghost use Rattle.month_calls.specs.MonthCalls.{take_month_here, month_totals_here, run_months_here};

// Takes one monthly record: the image, the totals, the output and the answer are written, or the refusal's number comes back.
pub fn take(
    image: &mut [u8],
    totals: &mut [u8],
    record: &[u8],
    out: &mut [u8],
    answer: &mut [u8],
) -> u8
    ensures value { result ≡ (take_month_here image.old totals.old «record».now out.old answer.old).refusal }
    ensures image_after { image.new ≡ image_then (take_month_here image.old totals.old «record».now out.old answer.old) image.old }
    ensures totals_after { totals.new ≡ month_totals_here image.old totals.old «record».now out.old answer.old }
    ensures out_after { out.new ≡ out_then (take_month_here image.old totals.old «record».now out.old answer.old) out.old }
    ensures answer_after { answer.new ≡ answered (take_month_here image.old totals.old «record».now out.old answer.old) answer.old }
{
    let room = calls::room(out.len(), answer.len());
    let taken = yearly_totals::take_month(image::read(image), totals, record, &mut out[..room]);
    calls::keep(image, answer, taken)
}

// Takes the monthly records of a file one after another, adds each accepted one to its year's slot, writes its output record, and leaves the image
// of the ledger after the last of them; answers the refusal of the next one, 0 if none, how many were accepted, and their decay work.
pub fn run(
    image: &mut [u8],
    totals: &mut [u8],
    records: &[u8],
    out: &mut [u8],
    accepted: &mut u64,
    work: &mut u64,
) -> u8
    ensures value { result ≡ (run_months_here image.old totals.old records.now (length out.old)).refusal }
    ensures image_after { image.new ≡ run_image image.old (run_months_here image.old totals.old records.now (length out.old)) }
    ensures totals_after { totals.new ≡ totals_after totals.old (run_months_here image.old totals.old records.now (length out.old)).accepted }
    ensures out_after { out.new ≡ out_of (run_months_here image.old totals.old records.now (length out.old)) out.old }
    ensures accepted_after { accepted.new ≡ length (run_months_here image.old totals.old records.now (length out.old)).accepted }
    ensures work_after { work.new ≡ work_over (run_months_here image.old totals.old records.now (length out.old)).accepted }
{
    let end = yearly_totals::run_months(image::read(image), totals, records, out);
    calls::end_run(image, accepted, work, end)
}
