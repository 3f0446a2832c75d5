//! The classes of streams.
ghost use Rattle.std.specs.Prelude.{◌≡◌};
ghost use Rattle.flows.specs.Classes.{byte};

/// The class of a stream number: what the drawing and the set of read streams let anyone know of it.
#[derive(Clone, Copy, PartialEq, Eq, Debug)]
pub enum Class {
    /// The number is not in use.
    OutOfUse = 0,
    /// Unread, and on no closed path of unread streams: the balances force its amount.
    Observable = 1,
    /// Unread, and on a closed path of unread streams: the balances leave its amount open.
    Unobservable = 2,
    /// Read, with its ends in different parts: the other readings force its amount.
    Redundant = 3,
    /// Read, with its ends in one part: only its own meter tells its amount.
    JustMeasured = 4,
}

impl Class {
    /// The byte that stands for the class in a table of classes, from 0 to 4 in the order above.
    pub fn byte(self) -> u8
        ensures { result ≡ byte self }
    {
        self as u8
    }
}
