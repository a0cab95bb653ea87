// Words of plain text on standard output, for a program whose lines are compared: numbers, the bits of floats, and bytes; and the
// buffers that its cases lend, so that what a call leaves in them can be seen.
// A write that fails is passed over. What stands on standard output no contract can say: each that prints answers nothing.
#![tactic(auto)]

ghost use Rattle.std.specs.Prelude.{◌≡◌, ◌<◌};

mod lent;

pub use lent::{buffer, room_of};

// The hex digits by their values.
const DIGITS: [u8; 16] = *b"0123456789abcdef";

// The bytes of a page, on which the hex digits of bytes are gathered.
const PAGE: usize = 4096;

// Prints a text as it stands.
pub fn text(rt: &impl Print, of: &[u8])
    ensures { result ≡ tt }
{
    let _ = rt.write_all(of);
}

// Prints the byte that follows a word.
fn end(rt: &impl Print, follows: u8) {
    text(rt, &[follows]);
}

// Prints a number in plain decimal and the byte that follows it.
pub fn number(rt: &impl Print, n: u64, follows: u8)
    ensures { result ≡ tt }
{
    let _ = rt.print(n);
    end(rt, follows);
}

// Prints numbers with a space after each.
pub fn spaced(rt: &impl Print, of: &[u64])
    ensures { result ≡ tt }
{
    for n in of {
        number(rt, *n, b' ');
    }
}

// Prints the 16 hex digits of a float's bits and the byte that follows them.
pub fn bits(rt: &impl Print, pattern: u64, follows: u8)
    ensures { result ≡ tt }
{
    let _ = print!(rt; "{pattern:016x}");
    end(rt, follows);
}

// Prints bytes as hex, or a dash where there are none, and the byte that follows them.
pub fn bytes(rt: &impl Print, of: &[u8], follows: u8)
    ensures { result ≡ tt }
{
    if of.is_empty() {
        text(rt, b"-");
    }
    let mut page = [0u8; PAGE];
    for part in of.chunks(PAGE / 2) {
        for (place, byte) in part.iter().enumerate() {
            page[2 * place] = DIGITS[(*byte / 16) as usize];
            page[2 * place + 1] = DIGITS[(*byte % 16) as usize];
        }
        text(rt, &page[..2 * part.len()]);
    }
    end(rt, follows);
}
