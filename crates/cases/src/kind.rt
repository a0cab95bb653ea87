// The kinds of cases, each with its letter, the lengths of its payload and the function that prints its line.
ghost use Rattle.std.specs.Prelude.{◌≤◌, IfOk};

use crate::error::CaseError;

// The longest payload.
pub(crate) const LONGEST: usize = 65536;

#[derive(Clone, Copy, Debug, PartialEq, Eq)]
pub(crate) enum Case {
    Decay,
    Step,
    Run,
    Listing,
    Cell,
    Point,
    Masses,
    Order,
    Reduction,
    Columns,
    YearlyStep,
    YearlyRun,
    Percentages,
    Codes,
}

impl TryFrom<u8> for Case {
    type Error = CaseError;

    fn try_from(letter: u8) -> Result<Case, CaseError> {
        match letter {
            b'd' => Ok(Case::Decay),
            b's' => Ok(Case::Step),
            b'r' => Ok(Case::Run),
            b'l' => Ok(Case::Listing),
            b'c' => Ok(Case::Cell),
            b'p' => Ok(Case::Point),
            b'm' => Ok(Case::Masses),
            b'o' => Ok(Case::Order),
            b't' => Ok(Case::Reduction),
            b'b' => Ok(Case::Columns),
            b'y' => Ok(Case::YearlyStep),
            b'w' => Ok(Case::YearlyRun),
            b'u' => Ok(Case::Percentages),
            b'k' => Ok(Case::Codes),
            _ => Err(CaseError::UnknownKind),
        }
    }
}

impl Case {
    // Answers the least and the most bytes of a payload.
    fn lengths(self) -> (usize, usize)
        ensures { result.1 ≤ 65536 }
    {
        match self {
            Case::Decay => (3, 3),
            Case::Step => (ledger_cases::STEP_HEAD, LONGEST),
            Case::Run => (ledger_cases::RUN_HEAD, LONGEST),
            Case::Listing => (0, LONGEST),
            Case::Cell => (9, 9),
            Case::Point => (16, 16),
            Case::Masses => (9, LONGEST),
            Case::Order => (order_cases::HEAD, LONGEST),
            Case::Reduction => (tunisia_cases::HEAD, LONGEST),
            Case::Columns => (columns_cases::HEAD, LONGEST),
            Case::YearlyStep => (yearly_totals_cases::STEP_HEAD, LONGEST),
            Case::YearlyRun => (yearly_totals_cases::RUN_HEAD, LONGEST),
            Case::Percentages | Case::Codes => {
                (uncertainty_cases::PAYLOAD, uncertainty_cases::PAYLOAD)
            }
        }
    }

    // Answers the length of a payload again, or refuses it.
    pub(crate) fn check(self, length: usize) -> Result<usize, CaseError>
        ensures { IfOk result (λ length. length ≤ 65536) }
    {
        let (least, most) = self.lengths();
        if length < least || most < length {
            return Err(CaseError::BadLength);
        }
        Ok(length)
    }

    // Prints the line of a case.
    pub(crate) fn put_line(self, rt: &impl Print, payload: &[u8]) {
        match self {
            Case::Decay => ledger_cases::decay(rt, payload),
            Case::Step => ledger_cases::step(rt, payload),
            Case::Run => ledger_cases::run(rt, payload),
            Case::Listing => ledger_cases::listing(rt, payload),
            Case::Cell => door_cases::cell(rt, payload),
            Case::Point => door_cases::point(rt, payload),
            Case::Masses => samples_cases::masses(rt, payload),
            Case::Order => order_cases::repair(rt, payload),
            Case::Reduction => tunisia_cases::reduction(rt, payload),
            Case::Columns => columns_cases::fill(rt, payload),
            Case::YearlyStep => yearly_totals_cases::step(rt, payload),
            Case::YearlyRun => yearly_totals_cases::run(rt, payload),
            Case::Percentages => uncertainty_cases::by_percentages(rt, payload),
            Case::Codes => uncertainty_cases::by_codes(rt, payload),
        }
    }
}
