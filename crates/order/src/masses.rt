// One record, written anew.
ghost use Rattle.std.specs.Prelude.{◌≡◌, ◌+◌, ◌≤◌, ◌<◌, length, get_or};
ghost use Rattle.std.proofs.lemmas.List.Edits.{sets};
ghost use Rattle.numbers.specs.Lists.{joined};
ghost use Rattle.record.specs.Fields.{record_bytes, mass_of};
ghost use Rattle.order.specs.Order.{eight_bits};
ghost use Rattle.order.specs.Repair.{mass_bytes, rewritten, is_other};

// The bytes of a record before its masses, and those of a mass.
const HEAD: usize = 16;

const MASS: usize = 4;

// Answers the mass at a place of a record.
fn mass_at(record: &[u8], place: usize) -> u64
    requires { (length «record».now ≡ record_bytes) × (place < 8) }
    ensures { result ≡ mass_of «record».now place }
{
    numbers::read::<4>(record, HEAD + MASS * place)
}

// Writes the eight masses of a record into the output, where the record starts at a place, each from its place to its type's place, and
// answers the record's byte of the report: bit t is set exactly when the mass that comes to place t is another than the one there.
fn write_masses(record: &[u8], places: [usize; 8], out: &mut [u8], at: usize) -> u8
    requires { (length «record».now ≡ record_bytes) × (at + record_bytes ≤ length out.old) × ((t : _) → t < 8 → get_or places t 0 < 8) }
    ensures value { result ≡ eight_bits (is_other (λ t. get_or places t 0) «record».now) }
    ensures out_after { out.new ≡ sets out.old (at + 16) (joined (λ t. mass_bytes «record».now (get_or places t 0)) 8) }
{
    let mut bits = 0u8;
    for (t, place) in places.iter().enumerate() {
        let mass = mass_at(record, *place);
        numbers::write::<4>(out, at + HEAD + MASS * t, mass);
        if mass != mass_at(record, t) {
            bits |= 1 << t;
        }
    }
    bits
}

// Writes a record anew at a place of the output, and answers its byte of the report. The output goes by place: of a buffer that is lent
// as mutable chunks no contract of the library says what it ends as.
pub(crate) fn write_record(record: &[u8], places: [usize; 8], out: &mut [u8], at: usize) -> u8
    requires { (length «record».now ≡ record_bytes) × (at + record_bytes ≤ length out.old) × ((t : _) → t < 8 → get_or places t 0 < 8) }
    ensures value { result ≡ eight_bits (is_other (λ t. get_or places t 0) «record».now) }
    ensures out_after { out.new ≡ sets out.old at (rewritten (λ t. get_or places t 0) «record».now) }
{
    out[at..at + HEAD].copy_from_slice(&record[..HEAD]);
    write_masses(record, places, out, at)
}
