// The figures, from the eight columns.
ghost use Rattle.std.specs.Prelude.{[], ◌∷◌, ◌++◌, ◌≡◌, ◌*◌, ◌≤◌, length, drop};
ghost use Rattle.numbers.specs.Lists.{Each};
ghost use Rattle.record.specs.Fields.{record_bytes};
ghost use Rattle.run.specs.History.{records_of, whole_run};
ghost use Rattle.by_type.specs.Across.{HoldsReleases, HoldsAt, across_at, figures_across};

use record::Factors;

// Answers the sum of the eight columns at a place, in mg.
#[tactic(auto, unfolding(by_type::specs::Across::across_at))]
fn across(
    wood: &[u64],
    paper: &[u64],
    food: &[u64],
    textiles: &[u64],
    garden: &[u64],
    inert: &[u64],
    domestic: &[u64],
    industrial: &[u64],
    i: usize,
) -> u64
    requires { Each (HoldsAt i) 0 (wood.now ∷ paper.now ∷ food.now ∷ textiles.now ∷ garden.now ∷ inert.now ∷ domestic.now ∷ industrial.now ∷ []) }
    ensures { result ≡ across_at (wood.now ∷ paper.now ∷ food.now ∷ textiles.now ∷ garden.now ∷ inert.now ∷ domestic.now ∷ industrial.now ∷ []) i }
{
    wood[i] + paper[i] + food[i] + textiles[i] + garden[i] + inert[i] + domestic[i] + industrial[i]
}

// Fills the column of the figures in grams CO2e: the chain of each record's factors, from the releases added across.
pub fn add_across(
    file: &[u8],
    n: usize,
    wood: &[u64],
    paper: &[u64],
    food: &[u64],
    textiles: &[u64],
    garden: &[u64],
    inert: &[u64],
    domestic: &[u64],
    industrial: &[u64],
    figures: &mut [u64],
)
    requires file_value { ((whole_run file.now).refusal ≡ 0) × (record_bytes * n ≡ length file.now) }
    requires each { Each (HoldsReleases file.now n) 0 (wood.now ∷ paper.now ∷ food.now ∷ textiles.now ∷ garden.now ∷ inert.now ∷ domestic.now ∷ industrial.now ∷ []) }
    requires n_in_bounds { n ≤ length figures.old }
    ensures { figures.new ≡ figures_across (wood.now ∷ paper.now ∷ food.now ∷ textiles.now ∷ garden.now ∷ inert.now ∷ domestic.now ∷ industrial.now ∷ []) 0 (records_of file.now) ++ drop n figures.old }
{
    for (i, bytes) in file.chunks_exact(record::BYTES).enumerate() {
        let x0 = across(
            wood, paper, food, textiles, garden, inert, domestic, industrial, i,
        );
        figures[i] = figure::figure(Factors::of(bytes), x0);
    }
}
