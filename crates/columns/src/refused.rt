// Why a file is not worked out column by column.
ghost use Rattle.std.specs.Prelude.{◌≡◌};
ghost use Rattle.columns.specs.Refused.{number_of};

use refusal::Refusal;
use std::error::Error;
use std::fmt;

#[derive(Clone, Copy, Debug, PartialEq, Eq)]
pub enum ColumnsRefusal {
    // The first engine refuses a record.
    Record(Refusal),
    // A column has fewer places than the file has records.
    Short,
}

impl ColumnsRefusal {
    // Answers the number of the refusal.
    pub fn number(self) -> u8
        ensures { result ≡ number_of self }
    {
        match self {
            ColumnsRefusal::Record(why) => why.number(),
            ColumnsRefusal::Short => 26,
        }
    }
}

impl fmt::Display for ColumnsRefusal {
    fn fmt<W: fmt::Write>(&self, f: &mut fmt::Formatter<W>) -> fmt::Result {
        match self {
            ColumnsRefusal::Record(why) => write!(f, "{why}"),
            ColumnsRefusal::Short => {
                write!(f, "a column has fewer places than the file has records")
            }
        }
    }
}

impl Error for ColumnsRefusal {}
