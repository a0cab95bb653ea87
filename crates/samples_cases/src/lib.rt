// The case of sorting samples, as docs/CASES.md has it. It prints the line of its payload on standard output, and nothing for a
// payload that is too short for it; no contract can say what is printed. The program `cases` calls it.
#![tactic(auto)]

ghost use Rattle.std.specs.Prelude.{◌≡◌};

use samples::SamplesRefusal;

// Prints the answer.
fn put_sorted(rt: &impl Print, answer: Result<[u32; 8], SamplesRefusal>) {
    let (refusal, masses) = match answer {
        Ok(masses) => (0, masses),
        Err(why) => (why.number(), [0; 8]),
    };
    print::number(rt, refusal as u64, b' ');
    for mass in &masses[..7] {
        print::number(rt, *mass as u64, b' ');
    }
    print::number(rt, masses[7] as u64, b'\n');
}

// Prints the masses of a total and its samples.
pub fn masses(rt: &impl Print, payload: &[u8])
    ensures { result ≡ tt }
{
    if payload.len() < 9 {
        return;
    }
    let total = numbers::read::<8>(payload, 1);
    put_sorted(rt, samples::masses(payload[0], total, &payload[9..]));
}
