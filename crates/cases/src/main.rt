// Reads cases from standard input and prints one line for each, so that vectors are run against the ledger and compared.
// docs/CASES.md says what a case is and what its line holds; the tests run it.
#![tactic(auto)]

mod error;
mod kind;

ghost use Rattle.std.specs.Prelude.{◌≤◌};

use error::CaseError;
use kind::{Case, LONGEST};
use std::io::Read;

// Fills lent bytes from the input, or refuses an input that ends before they are full.
fn fill(from: &mut impl Read, lent: &mut [u8]) -> Result<(), CaseError> {
    if input::read_all(from, lent).length < lent.len() {
        return Err(CaseError::Truncated);
    }
    Ok(())
}

// Reads the payload of a case and prints its line. Out of line, so that an input without a case asks for no stack for one.
#[inline(never)]
fn put_case(
    from: &mut impl Read,
    rt: &impl Print,
    case: Case,
    length: usize,
) -> Result<(), CaseError>
    requires { length ≤ 65536 }
{
    let mut payload = [0u8; LONGEST];
    fill(from, &mut payload[..length])?;
    case.put_line(rt, &payload[..length]);
    Ok(())
}

// Reads a case and prints its line; answers whether there was one.
fn read_case(from: &mut impl Read, rt: &impl Print) -> Result<bool, CaseError> {
    let mut header = [0u8; 5];
    match input::read_all(from, &mut header).length {
        0 => return Ok(false),
        5 => (),
        _ => return Err(CaseError::Truncated),
    }
    let case = Case::try_from(header[0])?;
    let length = case.check(numbers::read::<4>(&header, 1) as usize)?;
    put_case(from, rt, case, length)?;
    Ok(true)
}

// Reads cases until the input ends or one cannot be read, and prints why. A proved loop ends, so the cases are counted up to a number
// that no input uses up.
fn main(rt: HostRuntime) {
    let mut from = rt.stdin();
    for _ in 0..u64::MAX {
        match read_case(&mut from, &rt) {
            Ok(true) => (),
            Ok(false) => return,
            Err(error) => {
                let _ = rt.println(error);
                return;
            }
        }
    }
}
