// The output record of 48 bytes: 'One step' of document 01. The ledger writes it.
#![tactic(auto)]

ghost use Rattle.std.specs.Prelude.{◌≡◌, ◌≤◌, length};
ghost use Rattle.std.proofs.lemmas.List.Edits.{sets};
ghost use Rattle.record.specs.Fields.{record_bytes};
ghost use Rattle.output.specs.Output.{output_head, five_of, written};

// What an output record says: period, kind, climate, x0 in mg, figure and bound in grams CO2e, total R and total T in mg.
#[derive(Clone, Copy, Debug, PartialEq, Eq)]
pub struct Output {
    pub period: u16,
    pub kind: u8,
    pub climate: u8,
    pub x0: u64,
    pub figure: u64,
    pub bound: u64,
    pub stock: u64,
    pub brought: u64,
}

// Writes the first 8 bytes: period, kind, climate and zeros.
fn write_head(out: &mut [u8], period: u16, kind: u8, climate: u8)
    requires { record_bytes ≤ length out.old }
    ensures { out.new ≡ sets out.old 0 (output_head period kind climate) }
{
    numbers::write::<2>(out, 0, period as u64);
    out[2] = kind;
    out[3] = climate;
    numbers::write::<4>(out, 4, 0);
}

// Writes the five numbers after them.
fn write_five(out: &mut [u8], x0: u64, figure: u64, bound: u64, stock: u64, brought: u64)
    requires { record_bytes ≤ length out.old }
    ensures { out.new ≡ sets out.old 8 (five_of x0 figure bound stock brought) }
{
    numbers::write::<8>(out, 8, x0);
    numbers::write::<8>(out, 16, figure);
    numbers::write::<8>(out, 24, bound);
    numbers::write::<8>(out, 32, stock);
    numbers::write::<8>(out, 40, brought);
}

// Writes an output record at the start of a buffer. A buffer under 48 bytes keeps its values.
pub fn write(out: &mut [u8], says: Output)
    ensures { out.new ≡ written says out.old }
{
    if out.len() < record::BYTES {
        return;
    }
    write_head(out, says.period, says.kind, says.climate);
    write_five(
        out,
        says.x0,
        says.figure,
        says.bound,
        says.stock,
        says.brought,
    );
}
