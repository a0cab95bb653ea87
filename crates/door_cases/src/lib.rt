// The cases of the spreadsheet's door, as docs/CASES.md has them: cell and chart point. Each prints the line of its payload on
// standard output, and nothing for a payload that is too short for it; no contract can say what is printed. The program `cases`
// calls them.
#![tactic(auto)]

ghost use Rattle.std.specs.Prelude.{◌≡◌, ◌≤◌, length};

use door::{Cell, CellRefusal};

// The bits of an infinity, and the sign's.
const INFINITY: u64 = 0x7ff0_0000_0000_0000;

const SIGN: u64 = 0x8000_0000_0000_0000;

// Answers the float of a pattern; each pattern of a NaN gives the same NaN.
fn float_of(pattern: u64) -> f64 {
    if INFINITY < pattern % SIGN {
        return 0.0 / 0.0;
    }
    f64::from_bits(pattern)
}

// Answers the cell of a payload.
fn read_cell(payload: &[u8]) -> Cell
    requires { 9 ≤ length payload.now }
{
    if payload[0] == 0 {
        return Cell::Empty;
    }
    Cell::Number(float_of(numbers::read::<8>(payload, 1)))
}

// Prints the answer to a cell.
fn put_mass(rt: &impl Print, answer: Result<u32, CellRefusal>) {
    let (refusal, mass) = match answer {
        Ok(mass) => (0, mass),
        Err(why) => (why.number(), 0),
    };
    print::number(rt, refusal as u64, b' ');
    print::number(rt, mass as u64, b'\n');
}

// Prints a cell.
pub fn cell(rt: &impl Print, payload: &[u8])
    ensures { result ≡ tt }
{
    if payload.len() < 9 {
        return;
    }
    put_mass(rt, door::weigh(read_cell(payload)));
}

// Prints a refusal's number, 0 if none, and the bits of a point's three floats.
fn put_point(rt: &impl Print, refusal: u8, figure: u64, low: u64, high: u64) {
    print::number(rt, refusal as u64, b' ');
    print::bits(rt, figure, b' ');
    print::bits(rt, low, b' ');
    print::bits(rt, high, b'\n');
}

// Prints the point of a figure and its bound; a point that is refused is all 0.
fn charted(rt: &impl Print, figure: u64, bound: u64) {
    match door::chart(figure, bound) {
        Ok(point) => {
            let figure = f64::to_bits(point.figure);
            let low = f64::to_bits(point.low);
            let high = f64::to_bits(point.high);
            put_point(rt, 0, figure, low, high);
        }
        Err(why) => put_point(rt, why.number(), 0, 0, 0),
    }
}

// Prints a chart point.
pub fn point(rt: &impl Print, payload: &[u8])
    ensures { result ≡ tt }
{
    if payload.len() < 16 {
        return;
    }
    charted(
        rt,
        numbers::read::<8>(payload, 0),
        numbers::read::<8>(payload, 8),
    );
}
