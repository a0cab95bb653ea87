// The lines that the listing prints, one for each accepted record and the one of a refusal.
// It serves the last part of document 01's section 'Worked figures'; `lines` puts them together. The lines of `changes` are written by
// `put` and `put_number` too.
#![tactic(auto)]

mod form;
mod text;

ghost use Rattle.std.specs.Prelude.{◌≡◌};
ghost use Rattle.line.specs.Line.{accepted_text, refused_text, padded, Lendable};

pub use form::{BYTES, Line};
use text::number;
pub use text::{put, put_number};

// Answers the line of an accepted record; stock is total R.
pub fn accepted(period: u16, x0: u64, figure: u64, bound: u64, stock: u64) -> Line
    ensures value { result ≡ padded (accepted_text period x0 figure bound stock) }
    ensures lendable { Lendable result }
{
    let mut bytes = [0u8; BYTES];
    let x0_at = number(&mut bytes, 0, period as u64, b' ');
    let figure_at = number(&mut bytes, x0_at, x0, b' ');
    let bound_at = number(&mut bytes, figure_at, figure, b' ');
    let stock_at = number(&mut bytes, bound_at, bound, b' ');
    let len = number(&mut bytes, stock_at, stock, b'\n');
    Line { bytes, len }
}

// Answers the line of a refusal, by its number, at a record, by its place.
pub fn refused(refusal: u8, place: u64) -> Line
    ensures value { result ≡ padded (refused_text refusal place) }
    ensures lendable { Lendable result }
{
    let mut bytes = [0u8; BYTES];
    let refusal_at = put(&mut bytes, 0, b"refused ");
    let words_at = number(&mut bytes, refusal_at, refusal as u64, b' ');
    let place_at = put(&mut bytes, words_at, b"at record ");
    let len = number(&mut bytes, place_at, place, b'\n');
    Line { bytes, len }
}
