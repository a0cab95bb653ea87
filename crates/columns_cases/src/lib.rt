// The case of a calculation by columns, as docs/CASES.md has it. It prints the line of its payload on standard output, and nothing for a
// payload that is too short for it; no contract can say what is printed. The program `cases` calls it.
#![tactic(auto)]

ghost use Rattle.std.specs.Prelude.{◌≡◌, ◌≤◌, ◌<◌, length};

use columns::TypeColumns;

// What comes before the file: how many places each of the nine columns has, in 2 bytes each.
pub const HEAD: usize = 18;

// The most places of a column that is lent.
const PLACES: usize = 1300;

// Answers the part of a column that is lent: as many places as the payload says, at most the most.
fn lent<'a>(column: &'a mut [u64; PLACES], payload: &[u8], at: usize) -> &'a mut [u64]
    requires { (18 ≤ length payload.now) × (at < 9) }
{
    let asked = numbers::read::<2>(payload, 2 * at) as usize;
    &mut column[..asked.min(PLACES)]
}

// Prints the places of a column with a space after each, or a dash where it has none.
fn put_column(rt: &impl Print, column: &[u64]) {
    if column.is_empty() {
        print::text(rt, b"- ");
    }
    for place in column {
        print::number(rt, *place, b' ');
    }
}

// Prints the refusal of a file, the columns that are lent and the end stocks, the last of the line.
fn put_filled(rt: &impl Print, file: &[u8], columns: &mut TypeColumns, figures: &mut [u64]) {
    let filled = columns::fill(file, columns, figures);
    let (refusal, stocks) = match filled {
        Ok(stocks) => (0, stocks),
        Err(why) => (why.number(), [0; 8]),
    };
    print::number(rt, refusal as u64, b' ');
    for column in columns.all() {
        put_column(rt, column);
    }
    put_column(rt, figures);
    for stock in &stocks[..7] {
        print::number(rt, *stock, b' ');
    }
    print::number(rt, stocks[7], b'\n');
}

// Prints the columns of a file, with as many places of each as the case asks for.
pub fn fill(rt: &impl Print, payload: &[u8])
    ensures { result ≡ tt }
{
    if payload.len() < HEAD {
        return;
    }
    // filled so that a place that keeps its value is seen
    let [
        mut wood,
        mut paper,
        mut food,
        mut textiles,
        mut garden,
        mut inert,
        mut domestic,
        mut industrial,
        mut figures,
    ] = [[0xA5A5A5A5A5A5A5A5; PLACES]; 9];
    let mut types = TypeColumns {
        wood: lent(&mut wood, payload, 0),
        paper: lent(&mut paper, payload, 1),
        food: lent(&mut food, payload, 2),
        textiles: lent(&mut textiles, payload, 3),
        garden: lent(&mut garden, payload, 4),
        inert: lent(&mut inert, payload, 5),
        domestic: lent(&mut domestic, payload, 6),
        industrial: lent(&mut industrial, payload, 7),
    };
    put_filled(
        rt,
        &payload[HEAD..],
        &mut types,
        lent(&mut figures, payload, 8),
    );
}
