// What a period makes of the types' carbon, in mg, and how much decay work that is.
ghost use Rattle.std.specs.Prelude.{◌≡◌, ltb};
ghost use Rattle.numbers.specs.Eight.{one};

// One type after a record: the carbon brought in, the carbon left, the carbon that the record released, and the decay work.
#[derive(Clone, Copy)]
pub struct Decayed {
    pub brought: u64,
    pub stock: u64,
    pub release: u64,
    pub work: u64,
}

// The eight types after a record, x0, their releases added, and their decay work added.
#[derive(Clone, Copy)]
pub struct Period {
    pub brought: [u64; 8],
    pub stock: [u64; 8],
    pub x0: u64,
    pub work: u64,
}

// Answers the decay work of one type: 1 where it holds carbon before decay, else 0.
pub(crate) fn decay_work(held: u64) -> u64
    ensures { result ≡ one (ltb 0 held) }
{
    (held > 0) as u64
}
