// The cases of the correction factor from uncertainties, as docs/CASES.md has them. Each prints the line of its payload on standard
// output, and nothing for a payload that is too short for it; no contract can say what is printed. The program `cases` calls them.
#![tactic(auto)]

ghost use Rattle.std.specs.Prelude.{◌≡◌, ◌≤◌, length};

use uncertainty::{FactorRefusal, Uncertainties};

// The bytes of a payload: a, b, c, d, e and g.
pub const PAYLOAD: usize = 6;

// Answers what a payload enters.
fn entered(payload: &[u8]) -> Uncertainties
    requires { 6 ≤ length payload.now }
{
    Uncertainties {
        a: payload[0],
        b: payload[1],
        c: payload[2],
        d: payload[3],
        e: payload[4],
        g: payload[5],
    }
}

// Prints an answer.
fn put_factor(rt: &impl Print, answer: Result<u8, FactorRefusal>) {
    let (refusal, factor) = match answer {
        Ok(factor) => (0, factor),
        Err(why) => (why.number(), 0),
    };
    print::number(rt, refusal as u64, b' ');
    print::number(rt, factor as u64, b'\n');
}

// Prints the factor of six percentages.
pub fn by_percentages(rt: &impl Print, payload: &[u8])
    ensures { result ≡ tt }
{
    if payload.len() >= PAYLOAD {
        put_factor(rt, entered(payload).by_percentages());
    }
}

// Prints the factor of two percentages and four codes.
pub fn by_codes(rt: &impl Print, payload: &[u8])
    ensures { result ≡ tt }
{
    if payload.len() >= PAYLOAD {
        put_factor(rt, entered(payload).by_codes());
    }
}
