// The columns of the eight types, and what is worked out over all of them.
ghost use Rattle.std.specs.Prelude.{◌++◌, ◌≡◌, ◌*◌, ◌≤◌, length, drop, map};
ghost use Rattle.numbers.specs.Eight.{eight};
ghost use Rattle.numbers.specs.Lists.{Each};
ghost use Rattle.record.specs.Fields.{record_bytes, kind_of, climate_of};
ghost use Rattle.carbon.specs.Carbon.{entry_at};
ghost use Rattle.run.specs.History.{records_of, whole_run};
ghost use Rattle.by_type.specs.Alone.{stock_alone, HasPlaces, filled_from};
ghost use Rattle.by_type.specs.Across.{HoldsReleases, figures_across};
ghost use Rattle.releases.specs.Columns.{contents, references};

use crate::across::add_across;
use crate::column::fill_column;

// The columns of the eight types, which are lent together.
#[derive(Drop)]
pub struct TypeColumns<'a> {
    pub wood: &'a mut [u64],
    pub paper: &'a mut [u64],
    pub food: &'a mut [u64],
    pub textiles: &'a mut [u64],
    pub garden: &'a mut [u64],
    pub inert: &'a mut [u64],
    pub domestic: &'a mut [u64],
    pub industrial: &'a mut [u64],
}

impl TypeColumns<'_> {
    // Answers the columns one after another.
    pub fn all(&self) -> [&[u64]; 8]
        ensures { map (λ column. column.now) result ≡ contents self.now }
    {
        [
            self.wood,
            self.paper,
            self.food,
            self.textiles,
            self.garden,
            self.inert,
            self.domestic,
            self.industrial,
        ]
    }

    // Fills the columns with the releases of their types in mg, one type after the other, and answers the types' stocks after the last record.
    // The first engine accepts the n records of the file; the entries are those of their kind and climate.
    pub fn fill(&mut self, file: &[u8], n: usize, entries: [u32; 8]) -> [u64; 8]
        requires file_value { ((whole_run file.now).refusal ≡ 0) × (record_bytes * n ≡ length file.now) }
        requires entries_value { entries ≡ eight (entry_at (kind_of file.now) (climate_of file.now)) }
        requires places { Each (HasPlaces n) 0 (contents self.old) }
        ensures value { result ≡ eight (λ t. stock_alone t 0 (records_of file.now)) }
        ensures same_references { references self.new ≡ references self.old }
        ensures columns_after { contents self.new ≡ filled_from file.now n 0 (contents self.old) }
    {
        // a call for each type, since a const argument is no loop's variable
        [
            fill_column::<0>(self.wood, file, n, entries[0]),
            fill_column::<1>(self.paper, file, n, entries[1]),
            fill_column::<2>(self.food, file, n, entries[2]),
            fill_column::<3>(self.textiles, file, n, entries[3]),
            fill_column::<4>(self.garden, file, n, entries[4]),
            fill_column::<5>(self.inert, file, n, entries[5]),
            fill_column::<6>(self.domestic, file, n, entries[6]),
            fill_column::<7>(self.industrial, file, n, entries[7]),
        ]
    }

    // Fills the column of the figures in grams CO2e: the chain of each record's factors, from the releases added across.
    pub fn add_across(&self, file: &[u8], n: usize, figures: &mut [u64])
        requires file_value { ((whole_run file.now).refusal ≡ 0) × (record_bytes * n ≡ length file.now) }
        requires each { Each (HoldsReleases file.now n) 0 (contents self.now) }
        requires n_in_bounds { n ≤ length figures.old }
        ensures { figures.new ≡ figures_across (contents self.now) 0 (records_of file.now) ++ drop n figures.old }
    {
        add_across(
            file,
            n,
            &self.wood,
            &self.paper,
            &self.food,
            &self.textiles,
            &self.garden,
            &self.inert,
            &self.domestic,
            &self.industrial,
            figures,
        );
    }
}
