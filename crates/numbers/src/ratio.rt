// Multiply and divide.
ghost use Rattle.std.specs.Prelude.{◌≡◌, ◌+◌, ◌-◌, ◌*◌, ◌/◌, ◌^◌, ◌<◌};

// Answers a × b / c rounded down; no product on the way is wider than 64 bits.
pub fn mul_div(a: u64, b: u64, c: u64) -> u64
    requires c_nonzero { 0 < c }
    requires b_bound { (c - 1) * b < 2 ^ 64 }
    requires c_bound { a * b / c < 2 ^ 64 }
    ensures { result ≡ a * b / c }
{
    a / c * b + a % c * b / c
}
