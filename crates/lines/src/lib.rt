// The listing of a whole file: the last part of document 01's section 'Worked figures'.
// The program `listing`, the entry for C and the test vectors call it.
#![tactic(auto)]

mod by_stretch;
mod room;
mod writing;

ghost use Rattle.std.specs.Prelude.{◌≡◌, ◌+◌, ◌≤◌, length};
ghost use Rattle.carbon.specs.Carbon.{most_records};
ghost use Rattle.run.specs.History.{records_begun};
ghost use Rattle.lines.specs.Listing.{most_lines, numbers_of, listed_of, text_of, LendableText};

use by_stretch::write_listing;
use ledger::Ledger;
pub use room::NoRoom;

// The most lines that a file can have: one more than a ledger takes records.
pub const LINES: usize = Ledger::RECORDS as usize + 1;

// The bytes of the records that can matter: one more than a ledger takes is refused at the latest.
pub const FILE: usize = record::BYTES * LINES;

// The most bytes that their text can have.
pub const TEXT: usize = line::BYTES * LINES;

// Answers the most lines that so many bytes of records can have.
fn most_lines(bytes: usize) -> usize
    ensures { (result ≡ most_lines (records_begun bytes)) × (result ≤ most_records + 1) }
{
    bytes.div_ceil(record::BYTES).min(LINES)
}

// Writes the listing of a file, from a fresh ledger, at the start of the text, and answers how many bytes it has; the text needs the
// bytes of a line for every line that there can be, and with less it keeps its values.
pub fn listing(file: &[u8], text: &mut [u8]) -> Result<usize, NoRoom>
    ensures value { numbers_of result ≡ listed_of file.now (length text.old) }
    ensures text_after { text.new ≡ text_of file.now text.old }
    ensures lendable_text { LendableText (numbers_of result).length text.new }
{
    if text.len() < line::BYTES * most_lines(file.len()) {
        return Err(NoRoom);
    }
    Ok(write_listing(file, text))
}
