// A file worked out column by column, one sheet for each waste type: request j of document 02. Whoever checks the ledger calls `fill` and
// holds its columns to the run's answers. The first engine judges the file; the numbers come from loops of their own.
#![tactic(auto)]

mod refused;

ghost use Rattle.std.specs.Prelude.{◌≡◌};
ghost use Rattle.by_type.specs.Columns.{any_short, columns_of, filled_of};
ghost use Rattle.releases.specs.Columns.{references};
ghost use Rattle.columns.specs.Lent.{lent};
ghost use Rattle.columns.specs.Refused.{numbers_of};

pub use refused::ColumnsRefusal;
pub use releases::TypeColumns;

// Tells whether one of the nine columns has fewer places than there are records.
fn is_short(records: usize, columns: &TypeColumns, figures: &[u64]) -> bool
    ensures { result ≡ any_short records (lent columns.now figures.now) }
{
    columns.all().iter().any(|column| column.len() < records) || figures.len() < records
}

// Fills eight columns with the releases of each type and the ninth with the figures, a place for each record of a file from a fresh ledger on,
// and answers the end stocks; or refuses as the first engine does, or where a column is too short, and writes nothing.
pub fn fill(
    file: &[u8],
    columns: &mut TypeColumns,
    figures: &mut [u64],
) -> Result<[u64; 8], ColumnsRefusal>
    ensures value { numbers_of result ≡ filled_of file.now (lent columns.old figures.old) }
    ensures same_references { references columns.new ≡ references columns.old }
    ensures columns_after { lent columns.new figures.new ≡ columns_of file.now (lent columns.old figures.old) }
{
    let judged = stretches::whole_run(file);
    if let Some(why) = judged.refusal {
        return Err(ColumnsRefusal::Record(why));
    }
    let n = judged.accepted as usize;
    if is_short(n, columns, figures) {
        return Err(ColumnsRefusal::Short);
    }
    let entries = carbon::entries(record::kind(file), record::climate(file));
    let stocks = columns.fill(file, n, entries);
    columns.add_across(file, n, figures);
    Ok(stocks)
}
