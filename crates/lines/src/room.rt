// Why a listing is refused.
ghost use Rattle.std.specs.Prelude.{◌≡◌};
ghost use Rattle.lines.specs.Listing.{number_of};

use std::error::Error;
use std::fmt;

// The text has too little room.
#[derive(Clone, Copy, Debug, PartialEq, Eq)]
pub struct NoRoom;

impl NoRoom {
    // Answers the number of the refusal.
    pub fn number(self) -> u8
        ensures { result ≡ number_of self }
    {
        2
    }
}

impl fmt::Display for NoRoom {
    fn fmt<W: fmt::Write>(&self, f: &mut fmt::Formatter<W>) -> fmt::Result {
        write!(
            f,
            "a text with under 90 bytes for every line that the file can have"
        )
    }
}

impl Error for NoRoom {}
