// The cells of the sheet, and the masses that they name.
// It serves the first paragraph of "The spreadsheet door" of document 01, and is called by the package that fills the sheet.
ghost use Rattle.std.specs.Prelude.{◌≡◌, ◌^◌, ◌<◌, Float};
ghost use Rattle.std.specs.Float.{binary64};
ghost use Rattle.std.specs.Float.Ieee.{of_bits};
ghost use Rattle.std.specs.Float.Ieee.Exact.{HasValue};
ghost use Rattle.door.specs.Cell.{answer_to, answer_to_number, refusal_number, numbers_of, whole_of};

use std::error::Error;
use std::fmt;

// Empty, or a number of kilograms; a rule of the project names this form, so it is no Option.
#[derive(Clone, Copy, Debug, PartialEq)]
pub enum Cell {
    Empty,
    Number(f64),
}

// Why a cell is refused.
#[derive(Clone, Copy, Debug, PartialEq, Eq)]
pub enum CellRefusal {
    EmptyCell,
    NotWhole,
    OutOfRange,
}

impl Cell {
    // The largest mass of a cell, in kilograms.
    pub const MASS_LIMIT: u32 = waste::MASS_LIMIT as u32;
}

impl CellRefusal {
    // Answers the number of the refusal.
    pub fn number(self) -> u8
        ensures { result ≡ refusal_number self }
    {
        match self {
            CellRefusal::EmptyCell => 10,
            CellRefusal::NotWhole => 11,
            CellRefusal::OutOfRange => 12,
        }
    }
}

impl fmt::Display for CellRefusal {
    fn fmt<W: fmt::Write>(&self, f: &mut fmt::Formatter<W>) -> fmt::Result {
        f.write_str(match self {
            CellRefusal::EmptyCell => "a spreadsheet cell that is empty",
            CellRefusal::NotWhole => "a cell that is not a whole number",
            CellRefusal::OutOfRange => "a cell below 0 or above 1,000,000,000",
        })
    }
}

impl Error for CellRefusal {}

// A number's bits are its sign, its exponent and its digits behind the leading one, which stands at LEAD.
const SIGN: u64 = 1 << 63;

const LEAD: u64 = 1 << 52;

// The exponent of 1, that of 2^52, from which on every number is whole, and that of the infinities and NaNs.
const ONE: u64 = 1023;

const ALL_WHOLE: u64 = ONE + 52;

const NOT_FINITE: u64 = 2047;

// Answers the mass of a number, or the refusal, from its sign, its digits and how many of these stand behind the point.
fn weigh_digits(minus: bool, digits: u64, behind: u64) -> Result<u32, CellRefusal>
    requires { (0 < digits) × (behind < 64) }
    ensures { (number : Float) → HasValue number minus digits (2 ^ behind) → numbers_of result ≡ answer_to_number (whole_of number) }
{
    let kg = digits >> behind;
    if kg << behind != digits {
        return Err(CellRefusal::NotWhole);
    }
    if minus {
        return Err(CellRefusal::OutOfRange);
    }
    if kg > Cell::MASS_LIMIT as u64 {
        return Err(CellRefusal::OutOfRange);
    }
    Ok(kg as u32)
}

// Answers the mass that a number's bits name, or the refusal: by whole numbers, which no floating-point mode changes.
fn weigh_bits(bits: u64) -> Result<u32, CellRefusal>
    ensures { numbers_of result ≡ answer_to_number (whole_of (of_bits binary64 bits)) }
{
    let size = bits % SIGN;
    if size == 0 {
        return Ok(0);
    }
    let exponent = size / LEAD;
    if exponent < ONE {
        return Err(CellRefusal::NotWhole);
    }
    if exponent == NOT_FINITE {
        return Err(CellRefusal::NotWhole);
    }
    if exponent >= ALL_WHOLE {
        return Err(CellRefusal::OutOfRange);
    }
    weigh_digits(bits >= SIGN, LEAD + bits % LEAD, ALL_WHOLE - exponent)
}

// Answers the mass that a cell names, or refuses the cell.
pub fn weigh(cell: Cell) -> Result<u32, CellRefusal>
    ensures { numbers_of result ≡ answer_to cell }
{
    let Cell::Number(kg) = cell else {
        return Err(CellRefusal::EmptyCell);
    };
    if kg.is_nan() {
        return Err(CellRefusal::NotWhole);
    }
    weigh_bits(f64::to_bits(kg))
}
