// A buffer that a case lends.
ghost use Rattle.std.specs.Prelude.{cond, ◌≡◌, ◌≤◌, ltb, length, replicate};

// The longest that is lent.
const LONGEST: usize = 65536;

// Answers a buffer of the longest length, filled so that a byte that keeps its value is seen.
pub fn buffer() -> [u8; LONGEST]
    ensures { (result ≡ replicate 65536 165) × (65536 ≡ length result) }
{
    [0xA5; LONGEST]
}

// Answers the room that a case asks for, at most the longest.
pub fn room_of(asked: u64) -> usize
    ensures { (result ≡ cond (ltb asked 65536) asked 65536) × (result ≤ 65536) }
{
    asked.min(LONGEST as u64) as usize
}
