// The points of the sheet's chart: a figure and the edges that its bound gives it.
// It serves the second paragraph of "The spreadsheet door" of document 01, and is called by the package that draws the sheet.
ghost use Rattle.std.specs.Prelude.{◌≡◌};
ghost use Rattle.door.specs.Point.{charted_of, edge_refusal, charted_as};

use std::error::Error;
use std::fmt;

// Two to the 53: each whole number up to here is a float exactly.
pub const EXACT: u64 = 9_007_199_254_740_992;

// A figure with its low edge and its high edge, in grams CO2e.
#[derive(Clone, Copy, Debug, Default, PartialEq)]
pub struct Point {
    pub figure: f64,
    pub low: f64,
    pub high: f64,
}

// Why a figure and its bound make no point: the high edge is above two to the 53.
#[derive(Clone, Copy, Debug, PartialEq, Eq)]
pub struct EdgeTooHigh;

impl EdgeTooHigh {
    // Answers the number of the refusal.
    pub fn number(self) -> u8
        ensures { result ≡ edge_refusal }
    {
        13
    }
}

impl fmt::Display for EdgeTooHigh {
    fn fmt<W: fmt::Write>(&self, f: &mut fmt::Formatter<W>) -> fmt::Result {
        f.write_str(
            "a chart point whose figure and bound add up to more than 9,007,199,254,740,992",
        )
    }
}

impl Error for EdgeTooHigh {}

// Answers the point of a figure and its bound, or refuses a high edge above two to the 53.
pub fn chart(figure: u64, bound: u64) -> Result<Point, EdgeTooHigh>
    ensures { charted_as result ≡ charted_of figure bound }
{
    if figure <= EXACT && bound <= EXACT - figure {
        // up to two to the 53 the casts round nothing, so that no rounding mode changes a point
        let low = figure.saturating_sub(bound);
        return Ok(Point {
            figure: figure as f64,
            low: low as f64,
            high: (figure + bound) as f64,
        });
    }
    Err(EdgeTooHigh)
}
