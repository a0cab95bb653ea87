// The listing of a file, stretch by stretch.
ghost use Rattle.std.specs.Prelude.{◌≤◌, length};
ghost use Rattle.lines.specs.Listing.{room_for};
ghost use Rattle.lines.specs.Outputs.{Lists};

use crate::writing::{put_lines, put_refusal};
use ledger::Ledger;

// Writes the listing of a file at the start of a text with room for it, and answers how many bytes it has.
pub(crate) fn write_listing(file: &[u8], text: &mut [u8]) -> usize
    requires { room_for file.now ≤ length text.old }
    ensures { Lists file.now text.old text.new result }
{
    let mut out = [0u8; stretches::STRETCH];
    let mut ledger = Ledger::fresh();
    let mut length: usize = 0;
    for part in file.chunks(stretches::STRETCH) {
        let ran = run::run(ledger, part, &mut out);
        length = put_lines(text, length, &out, ran.accepted);
        ledger = ran.ledger;
        if let Some(why) = ran.refusal {
            return put_refusal(text, length, why, ledger.n as u64 + 1);
        }
    }
    length
}
