// Where each type stood.
ghost use Rattle.std.specs.Prelude.{true, ◌≡◌};
ghost use Rattle.numbers.specs.Eight.{eight};
ghost use Rattle.order.specs.Order.{is_order};
ghost use Rattle.order.specs.Repair.{stood_at};

// Answers the places, from 0 on, where an order names the types 1 to 8.
pub(crate) fn places_of(order: &[u8]) -> [usize; 8]
    requires { is_order order.now ≡ true }
    ensures { result ≡ eight (stood_at order.now) }
{
    let mut places = [0usize; 8];
    for (p, byte) in order.iter().enumerate() {
        places[(*byte - 1) as usize] = p;
    }
    places
}
