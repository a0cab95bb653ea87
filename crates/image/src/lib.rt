// The ledger as 200 bytes, for whoever keeps it between calls or hands it over from another language: read from an image, and
// written as one. The entries for C and the program that runs test vectors call it.
#![tactic(auto)]

ghost use Rattle.std.specs.Prelude.{◌≡◌, ◌≤◌, length};
ghost use Rattle.std.proofs.lemmas.List.Edits.{sets};
ghost use Rattle.image.specs.Image.{front_of, ledger_of, imaged};

use ledger::Ledger;
use year_factors::YearFactors;

// The bytes of an image.
pub const BYTES: usize = 200;

// Answers the ledger of an image, and an unsound one for bytes of another length.
pub fn read(bytes: &[u8]) -> Ledger
    ensures { result ≡ ledger_of bytes.now }
{
    if bytes.len() != BYTES {
        let mut none = Ledger::fresh();
        none.n = 65535;
        return none;
    }
    Ledger {
        n: numbers::read::<2>(bytes, 0) as u16,
        kind: bytes[2],
        climate: bytes[3],
        year: YearFactors {
            factor: bytes[4],
            captured: numbers::read::<2>(bytes, 6) as u16,
            class: bytes[5],
        },
        brought: numbers::read_eight(bytes, 8),
        stock: numbers::read_eight(bytes, 72),
        released: numbers::read_eight(bytes, 136),
    }
}

// Writes the first 8 bytes: n, kind, climate and the year.
fn write_front(out: &mut [u8], ledger: Ledger)
    requires { 8 ≤ length out.old }
    ensures { out.new ≡ sets out.old 0 (front_of ledger) }
{
    numbers::write::<2>(out, 0, ledger.n as u64);
    out[2] = ledger.kind;
    out[3] = ledger.climate;
    out[4] = ledger.year.factor;
    out[5] = ledger.year.class;
    numbers::write::<2>(out, 6, ledger.year.captured as u64);
}

// Writes the image of a ledger. A buffer that is not 200 bytes keeps its values.
pub fn write(out: &mut [u8], ledger: Ledger)
    ensures { out.new ≡ imaged ledger out.old }
{
    if out.len() != BYTES {
        return;
    }
    let brought = ledger.brought;
    let stock = ledger.stock;
    let released = ledger.released;
    write_front(out, ledger);
    numbers::write_eight(out, 8, brought);
    numbers::write_eight(out, 72, stock);
    numbers::write_eight(out, 136, released);
}
