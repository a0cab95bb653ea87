// The spreadsheet door of document 01: the cells of a sheet and the masses that they name, and the points of its chart.
// The package that fills and draws the sheet calls it.
#![tactic(auto)]

mod cell;
mod point;

pub use cell::{Cell, CellRefusal, weigh};
pub use point::{EXACT, EdgeTooHigh, Point, chart};
