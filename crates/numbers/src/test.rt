// Tests of numbers.
ghost use Rattle.std.specs.Prelude.{◌≡◌};
ghost use Rattle.numbers.specs.Fault.{between};

// Tells whether a number is from a lowest to a highest one.
pub fn is_between(low: u64, x: u64, high: u64) -> bool
    ensures { result ≡ between low x high }
{
    (low <= x) & (x <= high)
}
