// Eight numbers of 8 bytes each, one after another: a number for each of the eight types.
ghost use Rattle.std.specs.Prelude.{◌≡◌, ◌+◌, ◌*◌, ◌≤◌, length, get_or};
ghost use Rattle.std.proofs.lemmas.List.Edits.{sets};
ghost use Rattle.numbers.specs.Bytes.{number_at, row_of};
ghost use Rattle.numbers.specs.Eight.{eight};

use crate::le;

// Answers the eight numbers from a place on.
pub fn read_eight(bytes: &[u8], at: usize) -> [u64; 8]
    requires { at + 64 ≤ length bytes.now }
    ensures { result ≡ eight (λ t. number_at 8 bytes.now (at + 8 * t)) }
{
    std::array::from_fn(|t| le::read::<8>(bytes, at + 8 * t))
}

// Writes eight numbers from a place on.
pub fn write_eight(out: &mut [u8], at: usize, row: [u64; 8])
    requires { at + 64 ≤ length out.old }
    ensures { out.new ≡ sets out.old at (row_of (λ t. get_or row t 0) 8) }
{
    for (t, x) in row.iter().enumerate() {
        le::write::<8>(out, at + 8 * t, *x);
    }
}
