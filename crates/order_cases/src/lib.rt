// The case of a shuffled file, as docs/CASES.md has it. It prints the line of its payload on standard output, and nothing for a payload
// that is too short for it; no contract can say what is printed. The program `cases` calls it.
#![tactic(auto)]

ghost use Rattle.std.specs.Prelude.{◌≡◌, ◌≤◌, ◌<◌, length};

use order::RepairRefusal;

// What stands ahead of the order: the room of the output and that of the report in 4 bytes each, and how many bytes the order has.
pub const HEAD: usize = 9;

// Answers a byte as a number of bytes.
fn bytes_by(byte: u8) -> usize
    ensures { (result ≡ byte) × (result < 256) }
{
    byte as usize
}

// Answers where the order ends in a payload: behind as many bytes as it says, or at the end where there are fewer.
fn order_end(payload: &[u8]) -> usize
    requires { 9 ≤ length payload.now }
    ensures { (9 ≤ result) × (result ≤ length payload.now) }
{
    let end = HEAD + bytes_by(payload[8]);
    if end < payload.len() {
        end
    } else {
        payload.len()
    }
}

// Prints the numbers of an answer with a space after each.
fn put_repaired(rt: &impl Print, answer: Result<u64, RepairRefusal>) {
    let (refusal, changed) = match answer {
        Ok(changed) => (0, changed),
        Err(why) => (why.number(), 0),
    };
    print::number(rt, refusal as u64, b' ');
    print::number(rt, changed, b' ');
}

// Prints a file put right, with the rooms that the case asks for.
pub fn repair(rt: &impl Print, payload: &[u8])
    ensures { result ≡ tt }
{
    if payload.len() < HEAD {
        return;
    }
    let mut out = print::buffer();
    let mut report = print::buffer();
    let room = print::room_of(numbers::read::<4>(payload, 0));
    let report_room = print::room_of(numbers::read::<4>(payload, 4));
    let end = order_end(payload);
    let lent = &mut out[0..room];
    let noted = &mut report[0..report_room];
    put_repaired(
        rt,
        order::repair(&payload[HEAD..end], &payload[end..], lent, noted),
    );
    print::bytes(rt, lent, b' ');
    print::bytes(rt, noted, b'\n');
}
