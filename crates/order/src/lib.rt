// A file whose masses stand in the order of translated names, put right: every mass at its type's place, and a report of what is not
// as it was. It serves request g of document 02, and is called by whoever has files that the old editions wrote.
#![tactic(auto)]

ghost use Rattle.std.specs.Prelude.{◌≡◌};
ghost use Rattle.order.specs.Repair.{refusal_number, numbers_of, repaired_of, out_left, report_left};

use std::error::Error;
use std::fmt;

mod masses;
mod places;
mod rewrite;
mod types;

// Why a file is not put right.
#[derive(Clone, Copy, Debug, PartialEq, Eq)]
pub enum RepairRefusal {
    NotAnOrder,
    PartOfARecord,
    NoRoom,
}

impl RepairRefusal {
    // Answers the number of the refusal.
    pub fn number(self) -> u8
        ensures { result ≡ refusal_number self }
    {
        match self {
            RepairRefusal::NotAnOrder => 20,
            RepairRefusal::PartOfARecord => 21,
            RepairRefusal::NoRoom => 22,
        }
    }
}

impl fmt::Display for RepairRefusal {
    fn fmt<W: fmt::Write>(&self, f: &mut fmt::Formatter<W>) -> fmt::Result {
        f.write_str(match self {
            RepairRefusal::NotAnOrder => {
                "shuffled files: an order that is not eight bytes, or does not name each of the types 1 to 8 once"
            }
            RepairRefusal::PartOfARecord => {
                "a file to put right whose length is not a multiple of 48"
            }
            RepairRefusal::NoRoom => {
                "an output shorter than that file, or a report shorter than its number of records"
            }
        })
    }
}

impl Error for RepairRefusal {}

// Rewrites a file with every mass at its type's place, reports which masses are not as they were, a byte for each record, and answers
// how many bits of the report are set; or refuses, in this order, what is no order, a file that is not whole records, and a buffer that
// is too short, with nothing written.
pub fn repair(
    order: &[u8],
    file: &[u8],
    out: &mut [u8],
    report: &mut [u8],
) -> Result<u64, RepairRefusal>
    ensures value { numbers_of result ≡ repaired_of order.now file.now out.old report.old }
    ensures out_after { out.new ≡ out_left order.now file.now out.old report.old }
    ensures report_after { report.new ≡ report_left order.now file.now out.old report.old }
{
    if !types::is_order(order) {
        return Err(RepairRefusal::NotAnOrder);
    }
    if file.len() % record::BYTES != 0 {
        return Err(RepairRefusal::PartOfARecord);
    }
    if (out.len() < file.len()) | (report.len() < file.len() / record::BYTES) {
        return Err(RepairRefusal::NoRoom);
    }
    let places = places::places_of(order);
    Ok(rewrite::rewrite(file, places, out, report))
}
