// The eight waste types by their fixed numbers, and the codes of kinds, climates and site classes: 'Waste types and their constants' of
// document 01. The ledger looks its constants up here, the door and the samples their limit. A number that names nothing has 0.
#![tactic(auto, using(std::proofs::lemmas::Bool::Decides::nat_tests))]

ghost use Rattle.std.specs.Prelude.{◌∷◌, ◌≡◌, ◌+◌, false, MatchOption};
ghost use Rattle.numbers.specs.Eight.{eight};
ghost use Rattle.waste.specs.Kind.{is_kind, code_of};
ghost use Rattle.waste.specs.Waste.{domestic_of, industrial_of, carbon_of, is_climate, group_of, rate_of, is_class, correction_of};

// The most of one type that a record or a cell can bring, and the largest total that samples part, in kilograms.
pub const MASS_LIMIT: u64 = 1_000_000_000;

// The most organic dry matter that sludge can have, in percent.
pub const MOST_DRY: u8 = 100;

// The kinds of a record and of a run: by year, and by month.
#[derive(Clone, Copy, Debug, PartialEq, Eq)]
pub enum Kind {
    Yearly,
    Monthly,
}

// The climates, and the site classes, by codes from 1 on.
const CLIMATES: usize = 4;

const CLASSES: usize = 4;

// Rates by climate code, place 0 being no climate.
const GROUP_A: [u16; CLIMATES + 1] = [0, 40, 60, 45, 70];

const GROUP_B: [u16; CLIMATES + 1] = [0, 20, 30, 25, 35];

const GROUP_C: [u16; CLIMATES + 1] = [0, 50, 100, 65, 170];

const GROUP_D: [u16; CLIMATES + 1] = [0, 60, 185, 85, 400];

const ALIKE: [u16; CLIMATES + 1] = [0, 30, 30, 30, 30];

const NONE: [u16; CLIMATES + 1] = [0; CLIMATES + 1];

// Answers the carbon content (DOC) of domestic sludge with m percent of organic dry matter; 0 keeps the default.
fn domestic(m: u8) -> u16
    ensures { result ≡ domestic_of m }
{
    if m == 0 { 500 } else { 50 * m as u16 }
}

// Answers that of industrial sludge.
fn industrial(m: u8) -> u16
    ensures { result ≡ industrial_of m }
{
    if m == 0 {
        900
    } else {
        (900 * m as u32 / 35) as u16
    }
}

// Answers the carbon content of a type, in hundredths of a percent of wet weight; m counts for sludge only.
#[tactic(auto, unfolding(crate::specs::Waste::carbon_of))]
pub fn carbon(waste: u8, m: u8) -> u16
    ensures { result ≡ carbon_of waste m }
{
    match waste {
        1 => 4300,
        2 => 4000,
        3 => 1500,
        4 => 2400,
        5 => 2000,
        7 => domestic(m),
        8 => industrial(m),
        _ => 0,
    }
}

// Answers the rates of a type, by climate code.
#[tactic(auto, unfolding(crate::specs::Waste::group_of))]
fn group(waste: u8) -> [u16; CLIMATES + 1]
    ensures { result ≡ 0 ∷ group_of waste }
{
    match waste {
        1 => GROUP_B,
        2 | 4 => GROUP_A,
        3 | 7 => GROUP_D,
        5 => GROUP_C,
        8 => ALIKE,
        _ => NONE,
    }
}

impl Kind {
    // Answers the kind of a code, which what is refused by 3, 5 or 15 need not have: so bytes, ledgers and calls hold codes.
    pub fn of(code: u8) -> Option<Kind>
        ensures { MatchOption result (is_kind code ≡ false) (λ kind. code_of kind ≡ code) }
    {
        match code {
            1 => Some(Kind::Yearly),
            2 => Some(Kind::Monthly),
            _ => None,
        }
    }
}

// Tells whether a number is a kind's code.
pub fn is_kind(kind: u8) -> bool
    ensures { result ≡ is_kind kind }
{
    Kind::of(kind).is_some()
}

// Tells whether a number is a climate's code.
pub fn is_climate(climate: u8) -> bool
    ensures { result ≡ is_climate climate }
{
    numbers::is_between(1, climate as u64, CLIMATES as u64)
}

// Answers the yearly rate of a type in a climate, in thousandths.
#[tactic(auto, unfolding(crate::specs::Waste::rate_of))]
pub fn rate(waste: u8, climate: u8) -> u16
    ensures { result ≡ rate_of waste climate }
{
    group(waste).get(climate as usize).copied().unwrap_or(0)
}

// Answers the yearly rates of types 1 to 8 in a climate.
pub fn rates(climate: u8) -> [u16; 8]
    ensures { result ≡ eight (λ t. rate_of (t + 1) climate) }
{
    std::array::from_fn(|t| rate(t as u8 + 1, climate))
}

// Tells whether a number is a site class's code.
pub fn is_class(class: u8) -> bool
    ensures { result ≡ is_class class }
{
    numbers::is_between(1, class as u64, CLASSES as u64)
}

// Answers the methane correction factor of a site class, in percent.
#[tactic(auto, unfolding(crate::specs::Waste::correction_of))]
pub fn correction(class: u8) -> u8
    ensures { result ≡ correction_of class }
{
    match class {
        1 => 100,
        2 => 50,
        3 => 80,
        4 => 40,
        _ => 0,
    }
}
