// The entries of the ledger for other software: numbers and byte slices in, numbers and lent bytes out. Each is thin over the
// proved crates. The crate `landfill_c` has them once more, for C; include/landfill.h is their description for the caller.
#![tactic(auto)]

ghost use Rattle.std.specs.Prelude.{cond, ◌≡◌, eqb, length};
ghost use Rattle.door.specs.Point.{charted_of};
ghost use Rattle.decay.specs.Series.{entry_of};
ghost use Rattle.door.specs.Cell.{answer_to};
ghost use Rattle.run.specs.History.{out_of, work_over};
ghost use Rattle.ledger.specs.Take.{totals_of};
ghost use Rattle.image.specs.Image.{image_bytes, fresh_left, ledger_of};
ghost use Rattle.samples.specs.Samples.{sorted_of};
ghost use Rattle.uncertainty.specs.Uncertainty.{entering, numbers_of, by_percentages, by_codes};
ghost use Rattle.order.specs.Repair.{repaired_of, out_left, report_left};
ghost use Rattle.tunisia.specs.Reduction.{reduction_of};
ghost use Rattle.by_type.specs.Columns.{nine, columns_of, filled_of};
ghost use Rattle.lines.specs.Listing.{listed_of, text_of};
ghost use Rattle.calls.specs.Calls.{answered, image_then, out_then, take_here, take_image, take_out, take_answer, run_here, run_image};
ghost use Rattle.yearly_totals.specs.Months.{totals_after};
ghost use Rattle.month_calls.specs.MonthCalls.{take_month_here, month_totals_here, run_months_here};
ghost use Rattle.landfill.specs.Entries.{cell_of};

use columns::TypeColumns;
use door::Cell;
use ledger::Ledger;
use reductions::Stretch;
use uncertainty::{FactorRefusal, Uncertainties};

// Answers the table entry of a rate in thousandths, kind 1 by year and 2 by month, and 0 for any other rate or kind.
pub fn landfill_entry(kind: u8, rate: u16) -> u32
    ensures { result ≡ entry_of kind rate }
{
    decay::entry(kind, rate)
}

// Writes the image of a fresh ledger, all zero; a buffer that is not 200 bytes is refused with 3.
pub fn landfill_fresh(ledger: &mut [u8]) -> u8
    ensures refusal { result ≡ cond (eqb (length ledger.old) image_bytes) 0 3 }
    ensures ledger_after { ledger.new ≡ fresh_left ledger.old }
{
    if ledger.len() != image::BYTES {
        return 3;
    }
    image::write(ledger, Ledger::fresh());
    0
}

// Takes one record: the image, the output and the answer are written, or the refusal's number comes back.
pub fn landfill_take(ledger: &mut [u8], record: &[u8], out: &mut [u8], answer: &mut [u8]) -> u8
    ensures refusal { result ≡ (take_here ledger.old «record».now out.old answer.old).refusal }
    ensures ledger_after { ledger.new ≡ take_image ledger.old «record».now out.old answer.old }
    ensures out_after { out.new ≡ take_out ledger.old «record».now out.old answer.old }
    ensures answer_after { answer.new ≡ take_answer ledger.old «record».now out.old answer.old }
{
    calls::take(ledger, record, out, answer)
}

// Takes the records of a file one after another, writes an output record for each accepted one, and leaves the image of the
// ledger after the last of them; answers the refusal of the next one, 0 if none, how many were accepted, and their decay work.
pub fn landfill_run(
    ledger: &mut [u8],
    records: &[u8],
    out: &mut [u8],
    accepted: &mut u64,
    work: &mut u64,
) -> u8
    ensures refusal { result ≡ (run_here ledger.old records.now (length out.old)).refusal }
    ensures ledger_after { ledger.new ≡ run_image ledger.old (run_here ledger.old records.now (length out.old)) }
    ensures out_after { out.new ≡ out_of (run_here ledger.old records.now (length out.old)) out.old }
    ensures accepted_after { accepted.new ≡ length (run_here ledger.old records.now (length out.old)).accepted }
    ensures work_after { work.new ≡ work_over (run_here ledger.old records.now (length out.old)).accepted }
{
    calls::run(ledger, records, out, accepted, work)
}

// Answers 0 and the carbon left, brought in and released so far over all types, in mg; an unsound ledger gives 3 and zeros.
pub fn landfill_totals(ledger: &[u8], stock: &mut u64, brought: &mut u64, released: &mut u64) -> u8
    ensures refusal { result ≡ (totals_of (ledger_of ledger.now)).refusal }
    ensures stock_after { stock.new ≡ (totals_of (ledger_of ledger.now)).stock }
    ensures brought_after { brought.new ≡ (totals_of (ledger_of ledger.now)).brought }
    ensures released_after { released.new ≡ (totals_of (ledger_of ledger.now)).released }
{
    match image::read(ledger).totals() {
        Ok(totals) => {
            *stock = totals.stock;
            *brought = totals.brought;
            *released = totals.released;
            0
        }
        Err(why) => {
            *stock = 0;
            *brought = 0;
            *released = 0;
            why.number()
        }
    }
}

// Answers 0 and the mass in kilograms that a cell names, or 10, 11 or 12 and mass 0; `filled` 0 is an empty cell.
pub fn landfill_cell(filled: u8, kg: f64, mass: &mut u32) -> u8
    ensures refusal { result ≡ (answer_to (cell_of filled kg)).refusal }
    ensures mass_after { mass.new ≡ (answer_to (cell_of filled kg)).mass }
{
    let cell = if filled == 0 {
        Cell::Empty
    } else {
        Cell::Number(kg)
    };
    let (refusal, weighed) = match door::weigh(cell) {
        Ok(weighed) => (0, weighed),
        Err(why) => (why.number(), 0),
    };
    *mass = weighed;
    refusal
}

// Answers 0 and the masses of types 1 to 8 in kilograms into which samples part a total, or 14, 15 or 16 and zeros.
pub fn landfill_masses(kind: u8, total: u64, samples: &[u8], masses: &mut [u32; 8]) -> u8
    ensures refusal { result ≡ (sorted_of kind total samples.now).refusal }
    ensures masses_after { masses.new ≡ (sorted_of kind total samples.now).masses }
{
    let (refusal, sorted) = match samples::masses(kind, total, samples) {
        Ok(sorted) => (0, sorted),
        Err(why) => (why.number(), [0; 8]),
    };
    *masses = sorted;
    refusal
}

// Answers 0 and puts a factor down, or the number of its refusal and 0.
fn put_factor(answer: Result<u8, FactorRefusal>, factor: &mut u8) -> u8
    ensures refusal { result ≡ (numbers_of answer).refusal }
    ensures factor_after { factor.new ≡ (numbers_of answer).factor }
{
    let (refusal, found) = match answer {
        Ok(found) => (0, found),
        Err(why) => (why.number(), 0),
    };
    *factor = found;
    refusal
}

// Answers 0 and the correction factor in percent for six uncertainties in percent, or 18 and factor 0.
pub fn landfill_factor(a: u8, b: u8, c: u8, d: u8, e: u8, g: u8, factor: &mut u8) -> u8
    ensures refusal { result ≡ (by_percentages (entering a b c d e g)).refusal }
    ensures factor_after { factor.new ≡ (by_percentages (entering a b c d e g)).factor }
{
    let answer = Uncertainties { a, b, c, d, e, g }.by_percentages();
    put_factor(answer, factor)
}

// Answers 0 and the correction factor in percent for uncertainties a and b in percent and four chosen by codes, or 18 or 19 and
// factor 0.
pub fn landfill_factor_by_codes(a: u8, b: u8, c: u8, d: u8, e: u8, g: u8, factor: &mut u8) -> u8
    ensures refusal { result ≡ (by_codes (entering a b c d e g)).refusal }
    ensures factor_after { factor.new ≡ (by_codes (entering a b c d e g)).factor }
{
    let answer = Uncertainties { a, b, c, d, e, g }.by_codes();
    put_factor(answer, factor)
}

// Rewrites a file with every mass at its type's place, reports which masses are not as they were, a byte for each record, and answers 0
// and how many bits of the report are set; or 20, 21 or 22 and 0, with nothing written.
pub fn landfill_repair(
    order: &[u8],
    file: &[u8],
    out: &mut [u8],
    report: &mut [u8],
    changed: &mut u64,
) -> u8
    ensures refusal { result ≡ (repaired_of order.now file.now out.old report.old).refusal }
    ensures out_after { out.new ≡ out_left order.now file.now out.old report.old }
    ensures report_after { report.new ≡ report_left order.now file.now out.old report.old }
    ensures changed_after { changed.new ≡ (repaired_of order.now file.now out.old report.old).changed }
{
    let (refusal, bits) = match order::repair(order, file, out, report) {
        Ok(bits) => (0, bits),
        Err(why) => (why.number(), 0),
    };
    *changed = bits;
    refusal
}

// Answers 0 and the reference, project, reduction and bound of the years first to last of a file, or 24 or 25 and zeros; also how many
// years were accepted, and the refusal of the record after them, 0 if none.
pub fn landfill_tunisia(
    file: &[u8],
    first: u64,
    last: u64,
    electricity: &[u64],
    fuel: &[u64],
    reference: &mut u64,
    project: &mut u64,
    reduction: &mut i64,
    bound: &mut u64,
    years: &mut u64,
    refused: &mut u8,
) -> u8
    ensures refusal { result ≡ (reduction_of file.now first last electricity.now fuel.now).refusal }
    ensures reference_after { reference.new ≡ (reduction_of file.now first last electricity.now fuel.now).reference }
    ensures project_after { project.new ≡ (reduction_of file.now first last electricity.now fuel.now).project }
    ensures reduction_after { reduction.new ≡ (reduction_of file.now first last electricity.now fuel.now).reduction }
    ensures bound_after { bound.new ≡ (reduction_of file.now first last electricity.now fuel.now).bound }
    ensures years_after { years.new ≡ (reduction_of file.now first last electricity.now fuel.now).years }
    ensures refused_after { refused.new ≡ (reduction_of file.now first last electricity.now fuel.now).refused }
{
    let over = tunisia::reduction_over(file, Stretch { first, last }, electricity, fuel);
    *years = over.years;
    *refused = refusal::number_or_zero(over.refused);
    match over.amounts {
        Ok(all) => {
            *reference = all.reference;
            *project = all.project;
            *reduction = all.reduction;
            *bound = all.bound;
            0
        }
        Err(why) => {
            *reference = 0;
            *project = 0;
            *reduction = 0;
            *bound = 0;
            why.number()
        }
    }
}

// Answers 0, fills the columns of the eight types with their releases and the ninth with the figures, and sets the stocks after the last record;
// or the refusal of a record, or 26, with the columns as they were and stocks 0.
pub fn landfill_columns(
    file: &[u8],
    wood: &mut [u64],
    paper: &mut [u64],
    food: &mut [u64],
    textiles: &mut [u64],
    garden: &mut [u64],
    inert: &mut [u64],
    domestic: &mut [u64],
    industrial: &mut [u64],
    figures: &mut [u64],
    stocks: &mut [u64; 8],
) -> u8
    ensures refusal { result ≡ (filled_of file.now (nine wood.old paper.old food.old textiles.old garden.old inert.old domestic.old industrial.old figures.old)).refusal }
    ensures columns_after { nine wood.new paper.new food.new textiles.new garden.new inert.new domestic.new industrial.new figures.new ≡ columns_of file.now (nine wood.old paper.old food.old textiles.old garden.old inert.old domestic.old industrial.old figures.old) }
    ensures stocks_after { stocks.new ≡ (filled_of file.now (nine wood.old paper.old food.old textiles.old garden.old inert.old domestic.old industrial.old figures.old)).stocks }
{
    let mut columns = TypeColumns {
        wood,
        paper,
        food,
        textiles,
        garden,
        inert,
        domestic,
        industrial,
    };
    match columns::fill(file, &mut columns, figures) {
        Ok(left) => {
            *stocks = left;
            0
        }
        Err(why) => {
            *stocks = [0; 8];
            why.number()
        }
    }
}

// Takes one monthly record and adds it to its year's slot: the image, the totals, the output and the answer are written, or the refusal's number
// comes back.
pub fn landfill_take_month(
    ledger: &mut [u8],
    totals: &mut [u8],
    record: &[u8],
    out: &mut [u8],
    answer: &mut [u8],
) -> u8
    ensures refusal { result ≡ (take_month_here ledger.old totals.old «record».now out.old answer.old).refusal }
    ensures ledger_after { ledger.new ≡ image_then (take_month_here ledger.old totals.old «record».now out.old answer.old) ledger.old }
    ensures totals_left { totals.new ≡ month_totals_here ledger.old totals.old «record».now out.old answer.old }
    ensures out_after { out.new ≡ out_then (take_month_here ledger.old totals.old «record».now out.old answer.old) out.old }
    ensures answer_after { answer.new ≡ answered (take_month_here ledger.old totals.old «record».now out.old answer.old) answer.old }
{
    month_calls::take(ledger, totals, record, out, answer)
}

// Takes the monthly records of a file one after another, adds each accepted one to its year's slot and writes its output record, and leaves the image of
// the ledger after the last of them; answers the refusal of the next one, 0 if none, how many were accepted, and their decay work.
pub fn landfill_run_months(
    ledger: &mut [u8],
    totals: &mut [u8],
    records: &[u8],
    out: &mut [u8],
    accepted: &mut u64,
    work: &mut u64,
) -> u8
    ensures refusal { result ≡ (run_months_here ledger.old totals.old records.now (length out.old)).refusal }
    ensures ledger_after { ledger.new ≡ run_image ledger.old (run_months_here ledger.old totals.old records.now (length out.old)) }
    ensures totals_left { totals.new ≡ totals_after totals.old (run_months_here ledger.old totals.old records.now (length out.old)).accepted }
    ensures out_after { out.new ≡ out_of (run_months_here ledger.old totals.old records.now (length out.old)) out.old }
    ensures accepted_after { accepted.new ≡ length (run_months_here ledger.old totals.old records.now (length out.old)).accepted }
    ensures work_after { work.new ≡ work_over (run_months_here ledger.old totals.old records.now (length out.old)).accepted }
{
    month_calls::run(ledger, totals, records, out, accepted, work)
}

// Answers 0 and a figure's point of the chart, or 13 and zeros.
pub fn landfill_point(figure: u64, bound: u64, at: &mut f64, low: &mut f64, high: &mut f64) -> u8
    ensures refusal { result ≡ (charted_of figure bound).refusal }
    ensures at_after { at.new ≡ (charted_of figure bound).point.figure }
    ensures low_after { low.new ≡ (charted_of figure bound).point.low }
    ensures high_after { high.new ≡ (charted_of figure bound).point.high }
{
    match door::chart(figure, bound) {
        Ok(point) => {
            *at = point.figure;
            *low = point.low;
            *high = point.high;
            0
        }
        Err(why) => {
            *at = 0.0;
            *low = 0.0;
            *high = 0.0;
            why.number()
        }
    }
}

// Writes the listing of a file at the start of the text and answers 0; a text with under 90 bytes for every line that the file can
// have is refused with 2.
pub fn landfill_listing(records: &[u8], text: &mut [u8], written: &mut u64) -> u8
    ensures refusal { result ≡ (listed_of records.now (length text.old)).refusal }
    ensures text_after { text.new ≡ text_of records.now text.old }
    ensures written_after { written.new ≡ (listed_of records.now (length text.old)).length }
{
    match lines::listing(records, text) {
        Ok(length) => {
            *written = length as u64;
            0
        }
        Err(why) => {
            *written = 0;
            why.number()
        }
    }
}
