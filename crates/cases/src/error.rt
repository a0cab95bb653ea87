// Why a case cannot be read.
use std::error::Error;
use std::fmt;

#[derive(Clone, Copy, Debug, PartialEq, Eq)]
pub(crate) enum CaseError {
    Truncated,
    UnknownKind,
    BadLength,
}

impl fmt::Display for CaseError {
    fn fmt<W: fmt::Write>(&self, f: &mut fmt::Formatter<W>) -> fmt::Result {
        match self {
            CaseError::Truncated => write!(f, "truncated"),
            CaseError::UnknownKind => write!(f, "unknown kind"),
            CaseError::BadLength => write!(f, "bad length"),
        }
    }
}

impl Error for CaseError {}
