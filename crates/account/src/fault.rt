//! Why lines are not read as an account.
ghost use Rattle.std.specs.Prelude.{◌≡◌, Some};
ghost use Rattle.account.specs.declared.fault.ReadError.TheVariants.{Memory};
ghost use Rattle.account.specs.Messages.{reason_of, message};

use std::alloc::AllocFailed;
use std::error::Error;
use std::fmt;

/// Why a line gives no next entry.
#[derive(Clone, Copy, PartialEq, Eq, Debug)]
pub enum Fault {
    /// The line has no space between a day and an amount.
    NoSpace,
    /// What stands before the first space is not a day from 1 to 31.
    BadDay,
    /// What follows the first space is not an amount within the bounds.
    BadAmount,
    /// The day is not later than that of the entry before.
    NotLater,
}

impl Fault {
    /// The fault in words.
    pub fn reason(self) -> &'static str
        ensures { result.now ≡ reason_of self }
    {
        match self {
            Fault::NoSpace => "there is no space between a day and an amount",
            Fault::BadDay => "the day is not a number from 1 to 31",
            Fault::BadAmount =>
                "the amount is not a number within the bounds: 0 to 999999 for an advance, 1000000000000 grams either way for a mass",
            Fault::NotLater => "the day is not later than the one before",
        }
    }
}

/// The reason, in words.
impl fmt::Display for Fault {
    ghost output = { λ f. Some (reason_of f) };

    fn fmt<W: fmt::Write>(&self, f: &mut fmt::Formatter<W>) -> fmt::Result {
        f.write_str(self.reason())
    }
}

impl Error for Fault {}

/// Why lines are not read.
#[derive(Clone, Copy, PartialEq, Eq, Debug)]
pub enum ReadError {
    /// The line with this number, counted from 1, gives no next entry.
    Line { number: usize, fault: Fault },
    /// There was no memory for the entries.
    Memory,
}

impl<T: Drop> From<AllocFailed<T>> for ReadError {
    ghost from_gives = { λ _ r. r ≡ Memory };

    fn from(_refused: AllocFailed<T>) -> ReadError {
        Self::Memory
    }
}

/// The number of the line and the reason, or that there is no memory.
impl fmt::Display for ReadError {
    ghost output = { λ e. Some (message e) };

    fn fmt<W: fmt::Write>(&self, f: &mut fmt::Formatter<W>) -> fmt::Result {
        match self {
            ReadError::Line { number, fault } => write!(f, "line {number}: {fault}"),
            ReadError::Memory => write!(f, "there is not enough memory"),
        }
    }
}

impl Error for ReadError {}
