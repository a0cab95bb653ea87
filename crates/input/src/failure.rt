// What the programs write to standard error when a read or a write fails.
ghost use Rattle.std.specs.Prelude.{◌≤◌, length};

use std::io::{Error, Write};

// The room for the words of an error and the number after them.
const WORDS: usize = 320;

// Answers how many bytes the words of an error have: those before its number, or before the zeros where it has none.
fn words_of(text: &[u8]) -> usize
    ensures { result ≤ length text.now }
{
    (0..text.len())
        .find(|end| text[*end] == 0 || text[*end..].starts_with(b" (os error "))
        .unwrap_or(text.len())
}

// Writes what failed, as the caller names it, a colon and the system's words for the error.
pub fn fail(to: &impl Print, what: &[u8], error: Error) {
    let mut text = [0u8; WORDS];
    let mut room = &mut text[..];
    let _ = write!(room, "{error}");
    let length = words_of(&text);
    let _ = to.write_all(what);
    let _ = to.write_all(b": ");
    let _ = to.write_all(&text[..length]);
    let _ = to.write_all(b"\n");
}
