// Numbers at places of any bytes.
ghost use Rattle.std.specs.Prelude.{◌≡◌, ◌-◌, ◌^◌, ◌<◌, get_or};
ghost use Rattle.numbers.specs.Bytes.{number_at};

// Answers the byte at a place, and 0 past the end.
pub(crate) fn byte(bytes: &[u8], at: usize) -> u8
    ensures { result ≡ get_or bytes.now at 0 }
{
    if at < bytes.len() { bytes[at] } else { 0 }
}

// Answers the number of 2 bytes at a place.
pub(crate) fn two(bytes: &[u8], at: usize) -> u16
    requires { at < 2 ^ 16 }
    ensures { result ≡ number_at 2 bytes.now at }
{
    byte(bytes, at) as u16 + 256 * byte(bytes, at + 1) as u16
}

// Answers the number of 4 bytes at a place.
pub(crate) fn four(bytes: &[u8], at: usize) -> u32
    requires { at < 2 ^ 16 - 2 }
    ensures { result ≡ number_at 4 bytes.now at }
{
    two(bytes, at) as u32 + 65536 * two(bytes, at + 2) as u32
}
