// The line itself.

// The most bytes of a line.
pub const BYTES: usize = 90;

// The first len bytes are its text; the unused bytes are 0. An array with a length by value: a rule of document 01.
#[derive(Clone, Copy)]
pub struct Line {
    pub bytes: [u8; BYTES],
    pub len: usize,
}
