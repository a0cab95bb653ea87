// Lines, written into a text.
ghost use Rattle.std.specs.Prelude.{◌≡◌, ◌+◌, ◌*◌, ◌≤◌, length, take};
ghost use Rattle.record.specs.Fields.{record_bytes};
ghost use Rattle.refusal.specs.Numbers.{number_of};
ghost use Rattle.line.specs.Line.{line_bytes, padded, refused_text, Lendable};
ghost use Rattle.line.specs.Writing.{Writes};
ghost use Rattle.lines.specs.Outputs.{output_text, output_lines};

use line::Line;
use refusal::Refusal;

// Answers the line of the output record at a place.
fn line_at(out: &[u8], at: usize) -> Line
    requires { at + record_bytes ≤ length out.now }
    ensures value { result ≡ padded (output_text out.now at) }
    ensures lendable { Lendable result }
{
    line::accepted(
        numbers::read::<2>(out, at) as u16,
        numbers::read::<8>(out, at + 8),
        numbers::read::<8>(out, at + 16),
        numbers::read::<8>(out, at + 24),
        numbers::read::<8>(out, at + 32),
    )
}

// Writes the text of a line from a place on, and answers the place after it.
fn put(text: &mut [u8], at: usize, line: Line) -> usize
    requires lendable { Lendable line }
    requires len_in_bounds { at + line.len ≤ length text.old }
    ensures { Writes text.old at (take line.len line.bytes) text.new result }
{
    line::put(text, at, &line.bytes[..line.len])
}

// Writes the lines of so many output records from a place on, and answers the place after them.
pub(crate) fn put_lines(text: &mut [u8], at: usize, out: &[u8], count: u64) -> usize
    requires { (record_bytes * count ≤ length out.now) × (at + line_bytes * count ≤ length text.old) }
    ensures writes { Writes text.old at (output_lines out.now count) text.new result }
    ensures upper_bound { result ≤ at + line_bytes * count }
{
    let mut end = at;
    for i in 0..count as usize {
        end = put(text, end, line_at(out, record::BYTES * i));
    }
    end
}

// Writes the line of a refusal from a place on, and answers the place after it.
pub(crate) fn put_refusal(text: &mut [u8], at: usize, why: Refusal, place: u64) -> usize
    requires { at + line_bytes ≤ length text.old }
    ensures writes { Writes text.old at (refused_text (number_of why) place) text.new result }
    ensures upper_bound { result ≤ at + line_bytes }
{
    put(text, at, line::refused(why.number(), place))
}
