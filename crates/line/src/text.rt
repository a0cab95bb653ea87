// Words and numbers, written into a text.
ghost use Rattle.std.specs.Prelude.{◌≡◌, ◌++◌, ◌∷◌, [], ◌+◌, ◌≤◌, length};
ghost use Rattle.line.specs.Line.{decimal_of, line_bytes};
ghost use Rattle.line.specs.Writing.{Writes};

use crate::form::BYTES;
use itoa::Buffer;

// Writes a word from a place of a text on, and answers the place after it.
pub fn put(text: &mut [u8], at: usize, word: &[u8]) -> usize
    requires { at + length word.now ≤ length text.old }
    ensures { Writes text.old at word.now text.new result }
{
    numbers::write_bytes(text, at, word);
    at + word.len()
}

// Writes a number in plain decimal from a place of a text on, and answers the place after it.
pub fn put_number(text: &mut [u8], at: usize, n: u64) -> usize
    requires { at + 20 ≤ length text.old }
    ensures writes { Writes text.old at (decimal_of n) text.new result }
    ensures upper_bound { result ≤ at + 20 }
{
    let mut digits = Buffer::new();
    put(text, at, digits.format(n).as_bytes())
}

// Writes a number and the byte that follows it into the bytes of a line, and answers the place after both.
pub(crate) fn number(out: &mut [u8; BYTES], at: usize, n: u64, follows: u8) -> usize
    requires { at + 21 ≤ line_bytes }
    ensures writes { Writes out.old at (decimal_of n ++ (follows ∷ [])) out.new result }
    ensures upper_bound { result ≤ at + 21 }
{
    let end = put_number(out, at, n);
    out[end] = follows;
    end + 1
}
