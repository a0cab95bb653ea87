// The report of a repair as text, on standard output: a line for each record that changed. The program `repair` calls it.
// What is written no contract can say; the text of a line is proved.
#![tactic(auto)]

ghost use Rattle.std.specs.Prelude.{◌+◌, ◌≤◌, length};
ghost use Rattle.line.specs.Writing.{Writes};
ghost use Rattle.changes.specs.Report.{places_text, record_text};

use line::{put, put_number};
use std::io;

// The most bytes of a line: its words, a number of 20 digits, eight places and its end.
const LINE: usize = 52;

// Writes the places whose bits are set from a place of the line on, and answers the place after them.
fn put_places(line: &mut [u8], at: usize, bits: u8) -> usize
    requires { at + 16 ≤ length line.old }
    ensures writes { Writes line.old at (places_text bits) line.new result }
    ensures upper_bound { result ≤ at + 16 }
{
    let mut end = at;
    for t in 0..8u8 {
        if (bits >> t) % 2 == 1 {
            end = put(line, end, &[b' ', b'1' + t]);
        }
    }
    end
}

// Writes the line of a record, by its place in the file and its byte of the report, and answers how long it is.
fn put_record(line: &mut [u8], place: u64, bits: u8) -> usize
    requires { 52 ≤ length line.old }
    ensures writes { Writes line.old 0 (record_text place bits) line.new result }
    ensures upper_bound { result ≤ 52 }
{
    let place_at = put(line, 0, b"record ");
    let colon_at = put_number(line, place_at, place);
    let places_at = put(line, colon_at, b": places");
    let end_at = put_places(line, places_at, bits);
    put(line, end_at, b"\n")
}

// Prints the line of a record, and tells whether that went well.
fn print_record(rt: &impl Print, place: u64, bits: u8) -> io::Result<()> {
    let mut line = [0u8; LINE];
    let length = put_record(&mut line, place, bits);
    rt.write_all(&line[..length])
}

// Prints a line for each record that changed, and tells whether that went well.
pub fn print_report(rt: &impl Print, report: &[u8]) -> io::Result<()> {
    for (q, bits) in report.iter().enumerate() {
        if *bits != 0 {
            print_record(rt, q as u64 + 1, *bits)?;
        }
    }
    Ok(())
}
