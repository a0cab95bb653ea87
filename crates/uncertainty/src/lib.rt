// The model correction factor worked out from uncertainties: option 2 of source 000, its equations (3) and (4).
// It serves request d of document 02, and is called by the package whose users choose that option.
#![tactic(auto)]

ghost use Rattle.std.specs.Prelude.{◌≡◌, ◌*◌, ◌^◌, ◌≤◌, ◌<◌, cond, map};
ghost use Rattle.uncertainty.specs.Uncertainty.{is_percentage, are_percentages, each_of, squares_of, most_squares, allows, factor_for, is_code, are_codes, choice_of, chosen, chosen_by, refusal_number, numbers_of, by_percentages, by_codes};

use std::error::Error;
use std::fmt;

// The most that a percentage can be, an uncertainty's as well as the factor's.
const FULL: u8 = 100;

// The uncertainties of the masses (a), of DOC (b), DOCf (c), F (d), the methane correction factor (e) and the exponential term (g): in
// whole percent, or c, d, e and g as codes that choose them. All are bytes, since any byte may be entered: a or b over 100 is looked at
// before what is no code.
#[derive(Clone, Copy)]
pub struct Uncertainties {
    pub a: u8,
    pub b: u8,
    pub c: u8,
    pub d: u8,
    pub e: u8,
    pub g: u8,
}

// Why no factor is answered.
#[derive(Clone, Copy, Debug, PartialEq, Eq)]
pub enum FactorRefusal {
    PercentageTooLarge,
    UnknownCode,
}

// Which of the two values of its uncertainty a code chooses.
#[derive(Clone, Copy, Debug, PartialEq, Eq)]
enum Choice {
    Lower,
    Higher,
}

impl FactorRefusal {
    // Answers the number of the refusal.
    pub fn number(self) -> u8
        ensures { result ≡ refusal_number self }
    {
        match self {
            FactorRefusal::PercentageTooLarge => 18,
            FactorRefusal::UnknownCode => 19,
        }
    }
}

impl fmt::Display for FactorRefusal {
    fn fmt<W: fmt::Write>(&self, f: &mut fmt::Formatter<W>) -> fmt::Result {
        f.write_str(match self {
            FactorRefusal::PercentageTooLarge => "uncertainties: an entered percentage over 100",
            FactorRefusal::UnknownCode => {
                "a code that chooses neither the lower value (1) nor the higher one (2)"
            }
        })
    }
}

impl Error for FactorRefusal {}

impl TryFrom<u8> for Choice {
    type Error = FactorRefusal;

    ghost try_from_gives = { λ code answer. answer ≡ choice_of code };

    fn try_from(code: u8) -> Result<Choice, FactorRefusal> {
        match code {
            1 => Ok(Choice::Lower),
            2 => Ok(Choice::Higher),
            _ => Err(FactorRefusal::UnknownCode),
        }
    }
}

// Tells whether a number is a percentage.
fn is_percentage(x: u8) -> bool
    ensures { result ≡ is_percentage x }
{
    x <= FULL
}

// Answers the value that a code chooses, or refuses what is no code.
fn choose(code: u8, lower: u8, higher: u8) -> Result<u8, FactorRefusal>
    ensures { result ≡ cond (is_code code) (Ok (chosen code lower higher)) (Err FactorRefusal.UnknownCode) }
{
    match Choice::try_from(code)? {
        Choice::Lower => Ok(lower),
        Choice::Higher => Ok(higher),
    }
}

// Answers the square of a number.
fn square(x: u8) -> u16
    ensures { result ≡ x * x }
{
    x as u16 * x as u16
}

// Tells whether the sum of squares allows a factor.
#[tactic(auto, unfolding(crate::specs::Uncertainty::allows))]
fn is_allowed(squares: u32, factor: u32) -> bool
    requires { (squares ≤ most_squares) × (factor ≤ 100) }
    ensures { result ≡ allows squares factor }
{
    let rest = 10000 - 100 * factor;
    factor * factor * squares <= rest * rest
}

// Answers the greatest factor that the sum of squares allows.
fn greatest_factor(squares: u32) -> u8
    requires { squares ≤ most_squares }
    ensures { result ≡ factor_for squares }
{
    for factor in (1..=FULL).rev() {
        if is_allowed(squares, factor as u32) {
            return factor;
        }
    }
    0
}

impl Uncertainties {
    // Answers the six in a row.
    fn each(self) -> [u8; 6]
        ensures { result ≡ each_of self }
    {
        [self.a, self.b, self.c, self.d, self.e, self.g]
    }

    // Tells whether all six are percentages.
    #[tactic(auto, unfolding(crate::specs::Uncertainty::are_percentages))]
    fn are_percentages(self) -> bool
        ensures { result ≡ are_percentages self }
    {
        self.each().iter().all(|x| is_percentage(*x))
    }

    // Answers the percentages that the codes of c, d, e and g choose, or refuses where one of these is no code.
    #[tactic(auto, unfolding(crate::specs::Uncertainty::are_codes, crate::specs::Uncertainty::chosen_by))]
    fn chosen_values(self) -> Result<Uncertainties, FactorRefusal>
        ensures { result ≡ cond (are_codes self) (Ok (chosen_by self)) (Err FactorRefusal.UnknownCode) }
    {
        Ok(Uncertainties {
            c: choose(self.c, 5, 15)?,
            d: choose(self.d, 0, 5)?,
            e: choose(self.e, 0, 50)?,
            g: choose(self.g, 5, 20)?,
            ..self
        })
    }

    // Answers the six squares.
    fn each_squared(self) -> [u16; 6]
        ensures { result ≡ map (λ x. x * x) (each_of self) }
    {
        self.each().map(square)
    }

    // Answers the sum of the squares.
    #[tactic(auto, unfolding(crate::specs::Uncertainty::squares_of))]
    fn squares(self) -> u32
        ensures { result ≡ squares_of self }
    {
        self.each_squared().iter().map(|x| *x as u32).sum()
    }

    // Answers the factor for six percentages, or refuses where one of them is over 100.
    #[tactic(auto, using(crate::proofs::Laws::squares_most, crate::proofs::Answer::percentage_over, crate::proofs::Answer::factor_found))]
    pub fn by_percentages(self) -> Result<u8, FactorRefusal>
        ensures { numbers_of result ≡ by_percentages self }
    {
        if !self.are_percentages() {
            return Err(FactorRefusal::PercentageTooLarge);
        }
        Ok(greatest_factor(self.squares()))
    }

    // Answers the factor for percentages a and b and the values that four codes choose, or refuses: a or b is over 100, then a code is
    // not 1 or 2.
    #[tactic(auto, using(crate::proofs::Answer::entered_over, crate::proofs::Answer::not_coded, crate::proofs::Answer::as_chosen))]
    pub fn by_codes(self) -> Result<u8, FactorRefusal>
        ensures { numbers_of result ≡ by_codes self }
    {
        if !(is_percentage(self.a) & is_percentage(self.b)) {
            return Err(FactorRefusal::PercentageTooLarge);
        }
        self.chosen_values()?.by_percentages()
    }
}
