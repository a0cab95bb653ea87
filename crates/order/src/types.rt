// The types that an order names, as a set in eight bits by shifts and masks, as a rule of the project asks: bit t − 1 is set exactly when
// type t is named.
ghost use Rattle.std.specs.Prelude.{◌≡◌, ◌+◌, eqb};
ghost use Rattle.std.specs.Int.Bits.{bit_or};
ghost use Rattle.order.specs.Order.{eight_bits, is_order};

// How many types there are, and the set of them all.
const TYPES: u8 = 8;

const ALL: u8 = 255;

// Answers a set with one byte's type in it; a byte that is no type adds nothing.
fn seen_with(seen: u8, byte: u8) -> u8
    ensures { result ≡ bit_or seen (eight_bits (λ k. eqb byte (k + 1))) }
{
    if byte == 0 {
        return seen;
    }
    if byte > TYPES {
        return seen;
    }
    seen | 1 << (byte - 1)
}

// Tells whether eight bytes name each type once.
pub(crate) fn is_order(order: &[u8]) -> bool
    ensures { result ≡ is_order order.now }
{
    if order.len() != TYPES as usize {
        return false;
    }
    let mut seen = 0u8;
    for byte in order {
        seen = seen_with(seen, *byte);
    }
    seen == ALL
}
