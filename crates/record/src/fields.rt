// The other fields of a record, what is allowed in them, and the carbon of a mass.
ghost use Rattle.std.specs.Prelude.{◌≡◌};
ghost use Rattle.record.specs.Fields.{period_of, kind_of, climate_of, factor_of, class_of, captured_of, dry_of, mass_of, deposit_of};
ghost use Rattle.record.specs.Ranges.{coded, dry_in_range, light};

use crate::bytes::{byte, four, two};

// Answers the period's number.
pub fn period(bytes: &[u8]) -> u16
    ensures { result ≡ period_of bytes.now }
{
    two(bytes, 0)
}

// Answers the kind: 1 yearly, 2 monthly.
pub fn kind(bytes: &[u8]) -> u8
    ensures { result ≡ kind_of bytes.now }
{
    byte(bytes, 2)
}

// Answers the climate.
pub fn climate(bytes: &[u8]) -> u8
    ensures { result ≡ climate_of bytes.now }
{
    byte(bytes, 3)
}

// Answers the correction factor.
pub fn factor(bytes: &[u8]) -> u8
    ensures { result ≡ factor_of bytes.now }
{
    byte(bytes, 4)
}

// Answers the site class.
pub fn class(bytes: &[u8]) -> u8
    ensures { result ≡ class_of bytes.now }
{
    byte(bytes, 8)
}

// Answers the captured share f.
pub fn captured(bytes: &[u8]) -> u16
    ensures { result ≡ captured_of bytes.now }
{
    two(bytes, 10)
}

// Answers the organic dry matter m of a type, in percent; 0 where its carbon content is the default.
#[tactic(auto, unfolding(crate::specs::Fields::dry_of))]
fn dry(bytes: &[u8], waste: u8) -> u8
    ensures { result ≡ dry_of bytes.now waste }
{
    match waste {
        7 => byte(bytes, 12),
        8 => byte(bytes, 13),
        _ => 0,
    }
}

// Tells whether m of both kinds of sludge is within its range.
pub fn is_dry_in_range(bytes: &[u8]) -> bool
    ensures { result ≡ dry_in_range bytes.now }
{
    (dry(bytes, 7) <= waste::MOST_DRY) & (dry(bytes, 8) <= waste::MOST_DRY)
}

// Tells whether kind, climate and class are codes and bytes 14 and 15 are zero.
pub fn is_coded(bytes: &[u8]) -> bool
    ensures { result ≡ coded bytes.now }
{
    let class = waste::is_class(class(bytes)) & (two(bytes, 14) == 0);
    let climate = waste::is_climate(climate(bytes)) & class;
    waste::is_kind(kind(bytes)) & climate
}

// Answers the mass at place t, in kg.
fn mass(bytes: &[u8], t: u8) -> u32
    ensures { result ≡ mass_of bytes.now t }
{
    four(bytes, 16 + 4 * t as usize)
}

// Tells whether the mass at place t is at most the limit.
pub fn is_light(bytes: &[u8], t: u8) -> bool
    ensures { result ≡ light bytes.now t }
{
    mass(bytes, t) as u64 <= waste::MASS_LIMIT
}

// Answers the carbon that the mass at place t brings, in mg; place 0 has type 1.
pub fn deposit(bytes: &[u8], t: u8) -> u64
    ensures { result ≡ deposit_of bytes.now t }
{
    if t > 7 {
        return 0;
    }
    mass(bytes, t) as u64 * waste::carbon(t + 1, dry(bytes, t + 1)) as u64 * 100
}
