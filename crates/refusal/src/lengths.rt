// How far the records of a file go before a length refuses one: refusals 1 and 2 of document 01, ahead of a run's loop.
ghost use Rattle.std.specs.Prelude.{◌≡◌};
ghost use Rattle.refusal.specs.Numbers.{numbered};
ghost use Rattle.refusal.specs.Reach.{reach_of, left_over};

use crate::why::Refusal;

// Answers how many bytes of so many the records take that are whole and have room for their output records.
#[tactic(auto, using(std::proofs::lemmas::Bool::Decides::nat_tests), unfolding(crate::specs::Reach::reach_of))]
pub fn reach(records: usize, room: usize) -> usize
    ensures { result ≡ reach_of records room }
{
    records.min(room) / record::BYTES * record::BYTES
}

// Answers the refusal of what is left of a file after them, if any: no whole record (1), or no room for it (2).
#[tactic(auto, unfolding(crate::specs::Reach::left_over))]
pub fn left_over(bytes: usize) -> Option<Refusal>
    ensures { numbered result ≡ left_over bytes }
{
    if bytes == 0 {
        return None;
    }
    if bytes < record::BYTES {
        return Some(Refusal::RecordLength);
    }
    Some(Refusal::NoRoom)
}
