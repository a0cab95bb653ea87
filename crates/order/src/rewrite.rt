// A file of records, rewritten.
ghost use Rattle.std.specs.Prelude.{◌≡◌, [], ◌∷◌, ◌+◌, ◌*◌, ◌/◌, ◌≤◌, ◌<◌, length, get_or};
ghost use Rattle.std.specs.Int.Count.{ones};
ghost use Rattle.std.proofs.lemmas.List.Edits.{sets};
ghost use Rattle.numbers.specs.Eight.{one, sum_of};
ghost use Rattle.numbers.specs.Lists.{joined};
ghost use Rattle.order.specs.Order.{eight_bits};
ghost use Rattle.order.specs.Repair.{rewritten, is_other, record_in, number_of_records};

use crate::masses::write_record;

// Answers how many bits of a byte are set.
fn ones_in(byte: u8) -> u64
    ensures { (result ≡ ones byte) × (result ≤ 8) }
{
    byte.count_ones() as u64
}

// Writes each record anew and its byte of the report, and answers how many bits of the report are set.
pub(crate) fn rewrite(file: &[u8], places: [usize; 8], out: &mut [u8], report: &mut [u8]) -> u64
    requires { (length file.now ≤ length out.old) × (number_of_records file.now ≤ length report.old) × ((t : _) → t < 8 → get_or places t 0 < 8) }
    ensures value { result ≡ sum_of (λ q. sum_of (λ t. one (is_other (λ u. get_or places u 0) (record_in file.now q) t)) 8) (number_of_records file.now) }
    ensures out_after { out.new ≡ sets out.old 0 (joined (λ q. rewritten (λ u. get_or places u 0) (record_in file.now q)) (number_of_records file.now)) }
    ensures report_after { report.new ≡ sets report.old 0 (joined (λ q. eight_bits (is_other (λ u. get_or places u 0) (record_in file.now q)) ∷ []) (number_of_records file.now)) }
{
    let mut changed = 0u64;
    for (q, record) in file.chunks_exact(record::BYTES).enumerate() {
        let bits = write_record(record, places, out, record::BYTES * q);
        report[q] = bits;
        changed += ones_in(bits);
    }
    changed
}
