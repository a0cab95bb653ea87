// The column of one type, and those of four.
ghost use Rattle.std.specs.Prelude.{[], ◌∷◌, ◌++◌, ◌≡◌, ◌*◌, ◌≤◌, ◌<◌, length, drop, set};
ghost use Rattle.std.proofs.lemmas.List.Edits.{sets};
ghost use Rattle.numbers.specs.Eight.{eight};
ghost use Rattle.numbers.specs.Lists.{Each};
ghost use Rattle.record.specs.Fields.{record_bytes, kind_of, climate_of};
ghost use Rattle.carbon.specs.Carbon.{entry_at};
ghost use Rattle.run.specs.History.{records_of, whole_run};
ghost use Rattle.by_type.specs.Alone.{releases_alone, stock_alone, HasPlaces, filled_from, four_stocks};

// Fills the column of the type at place T with its releases in mg, from no stock on, and answers its stock after the last record. The first
// engine accepts the n records of the file; the entry is that of their kind and climate. T is a constant, so that the compiler knows the type's
// carbon content.
pub fn fill_column<const T: u8>(column: &mut [u64], file: &[u8], n: usize, entry: u32) -> u64
    requires file_value { ((whole_run file.now).refusal ≡ 0) × (record_bytes * n ≡ length file.now) }
    requires entry_value { entry ≡ entry_at (kind_of file.now) (climate_of file.now) T }
    requires places { (T < 8) × (n ≤ length column.old) }
    ensures value { result ≡ stock_alone T 0 (records_of file.now) }
    ensures column_after { column.new ≡ releases_alone T 0 (records_of file.now) ++ drop n column.old }
{
    let mut stock: u64 = 0;
    // the column by place, since a proof knows nothing of the elements after an adapter of `iter_mut`
    for (i, bytes) in file.chunks_exact(record::BYTES).enumerate() {
        let held = stock + record::deposit(bytes, T);
        let left = carbon::left(held, entry);
        column[i] = held - left;
        stock = left;
    }
    stock
}

// Fills the column of the type at place t, and answers the type's stock, as `fill_column` does.
fn fill_column_at(column: &mut [u64], file: &[u8], n: usize, entry: u32, t: u8) -> u64
    requires file_value { ((whole_run file.now).refusal ≡ 0) × (record_bytes * n ≡ length file.now) }
    requires entry_value { entry ≡ entry_at (kind_of file.now) (climate_of file.now) t }
    requires places { (t < 8) × (n ≤ length column.old) }
    ensures value { result ≡ stock_alone t 0 (records_of file.now) }
    ensures column_after { column.new ≡ releases_alone t 0 (records_of file.now) ++ drop n column.old }
{
    match t {
        0 => fill_column::<0>(column, file, n, entry),
        1 => fill_column::<1>(column, file, n, entry),
        2 => fill_column::<2>(column, file, n, entry),
        3 => fill_column::<3>(column, file, n, entry),
        4 => fill_column::<4>(column, file, n, entry),
        5 => fill_column::<5>(column, file, n, entry),
        6 => fill_column::<6>(column, file, n, entry),
        _ => fill_column::<7>(column, file, n, entry),
    }
}

// Fills the column of the type at place t, and puts its stock after the last record into the stocks. The entries are those of the records' kind
// and climate.
fn fill_type(
    column: &mut [u64],
    file: &[u8],
    n: usize,
    entries: [u32; 8],
    t: u8,
    stocks: [u64; 8],
) -> [u64; 8]
    requires file_value { ((whole_run file.now).refusal ≡ 0) × (record_bytes * n ≡ length file.now) }
    requires entries_value { entries ≡ eight (entry_at (kind_of file.now) (climate_of file.now)) }
    requires t_bound { (t < 8) × (n ≤ length column.old) }
    ensures value { result ≡ set stocks t (stock_alone t 0 (records_of file.now)) }
    ensures column_after { column.new ≡ releases_alone t 0 (records_of file.now) ++ drop n column.old }
{
    let stock = fill_column_at(column, file, n, entries[t as usize], t);
    let mut stocks = stocks;
    stocks[t as usize] = stock;
    stocks
}

// Fills the columns of four types, the first of which has place t, one column after the other, and puts their stocks after the last record into
// the stocks.
pub fn fill_four(
    file: &[u8],
    n: usize,
    entries: [u32; 8],
    t: u8,
    stocks: [u64; 8],
    first: &mut [u64],
    second: &mut [u64],
    third: &mut [u64],
    fourth: &mut [u64],
) -> [u64; 8]
    requires file_value { ((whole_run file.now).refusal ≡ 0) × (record_bytes * n ≡ length file.now) }
    requires entries_value { entries ≡ eight (entry_at (kind_of file.now) (climate_of file.now)) }
    requires t_bound { (t ≤ 4) × Each (HasPlaces n) t (first.old ∷ second.old ∷ third.old ∷ fourth.old ∷ []) }
    ensures value { result ≡ sets stocks t (four_stocks file.now t) }
    ensures fourth_after { first.new ∷ second.new ∷ third.new ∷ fourth.new ∷ [] ≡ filled_from file.now n t (first.old ∷ second.old ∷ third.old ∷ fourth.old ∷ []) }
{
    let one = fill_type(first, file, n, entries, t, stocks);
    let two = fill_type(second, file, n, entries, t + 1, one);
    let three = fill_type(third, file, n, entries, t + 2, two);
    fill_type(fourth, file, n, entries, t + 3, three)
}
