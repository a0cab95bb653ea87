// The program `repair`, for a support desk: request g of document 02.
// It reads a file of records from standard input and writes what `order::repair` makes of it, or a line for each record that this
// changes, to standard output; a short account of it goes to standard error.
#![tactic(auto)]

mod account;
mod arguments;

ghost use Rattle.std.specs.Prelude.{◌≡◌, ◌≤◌, length};
ghost use Rattle.repair.specs.Rooms.{file_bytes};

use arguments::Output;

// The most records of a file, ten times what a ledger takes: there is no heap.
const RECORDS: usize = 12_000;

// The bytes of the longest file.
const FILE_BYTES: usize = record::BYTES * RECORDS;

const INPUT_BYTES: usize = FILE_BYTES + 1;

// Answers so many bytes, all 0.
fn room<const N: usize>() -> [u8; N]
    ensures { length result ≡ N }
{
    [0; N]
}

// Writes the file, or the lines of its report, to standard output, and tells whether that went well; a failure is told on standard error.
fn write_out(rt: &HostRuntime, output: Output, file: &[u8], report: &[u8]) -> bool {
    let written = match output {
        Output::File => rt.write_all(file),
        Output::Report => changes::print_report(rt, report),
    };
    if let Err(error) = written {
        input::fail(&rt.stderr(), b"repair: standard output", error);
    }
    written.is_ok()
}

// Puts a file right, and tells how that went; nothing is written of a refused one.
fn put_right(rt: &HostRuntime, output: Output, types: &[u8], file: &[u8])
    requires { length file.now ≤ file_bytes }
{
    let mut out: [u8; FILE_BYTES] = room();
    let mut report: [u8; RECORDS] = room();
    let repaired = order::repair(types, file, &mut out, &mut report);
    let bytes = file.len();
    let records = bytes / record::BYTES;
    if repaired.is_ok() && !write_out(rt, output, &out[..bytes], &report[..records]) {
        return;
    }
    account::tell_account(&rt.stderr(), records as u64, repaired);
}

// Reads the order and the file, and puts the file right; a file that was not read to its end is only told of. Out of line, so that no
// stack is asked for a file where the arguments are not known.
#[inline(never)]
fn put_input_right(rt: &HostRuntime, output: Output) {
    let mut types = [0u8; arguments::ORDER];
    let named = arguments::order_asked(rt, &mut types);
    // a byte more than the longest file has, so that a longer one is seen to be longer
    let mut file: [u8; INPUT_BYTES] = room();
    let input = input::read_all(&mut rt.stdin(), &mut file);
    if let Some(error) = input.failure {
        input::fail(&rt.stderr(), b"repair: standard input", error);
        return;
    }
    let read = input.length;
    if read > FILE_BYTES {
        account::tell_too_long(&rt.stderr(), RECORDS as u64);
        return;
    }
    put_right(rt, output, &types[..named], &file[..read]);
}

// Does what the arguments ask for, or tells what they can be.
fn main(rt: HostRuntime) {
    match arguments::asked_for(&rt) {
        Some(output) => put_input_right(&rt, output),
        None => account::tell_usage(&rt.stderr()),
    }
}
