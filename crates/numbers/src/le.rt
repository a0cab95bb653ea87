// Numbers as bytes, little-endian.
ghost use Rattle.std.specs.Prelude.{◌≡◌, ◌+◌, ◌^◌, ◌≤◌, ◌<◌, length};
ghost use Rattle.std.proofs.lemmas.List.Edits.{sets};
ghost use Rattle.numbers.specs.Bytes.{number_at, bytes_of};

// Answers the number of N bytes at a place.
pub fn read<const N: usize>(bytes: &[u8], at: usize) -> u64
    requires width { N ≤ 8 }
    requires room { at + N ≤ length bytes.now }
    ensures { (result ≡ number_at N bytes.now at) × (result < 256 ^ N) }
{
    let mut wide = [0u8; 8];
    wide[..N].copy_from_slice(&bytes[at..at + N]);
    u64::from_le_bytes(wide)
}

// Writes the low N bytes of a number at a place.
pub fn write<const N: usize>(out: &mut [u8], at: usize, x: u64)
    requires width { N ≤ 8 }
    requires room { at + N ≤ length out.old }
    ensures { out.new ≡ sets out.old at (bytes_of N x) }
{
    let wide = x.to_le_bytes();
    out[at..at + N].copy_from_slice(&wide[..N]);
}
