//! Why a question is refused.
ghost use Rattle.std.specs.Prelude.{◌≡◌};
ghost use Rattle.flows.specs.Refusals.{number};

/// Why survey, value, rival or dispute is refused.
#[derive(Clone, Copy, PartialEq, Eq, Debug)]
pub enum QuestionFault {
    /// The stream number is outside 1 to 1,024.
    NumberOutside = 1,
    /// A table that was handed in is too short.
    TableTooShort = 3,
    /// The stream number is not in use.
    NotInUse = 22,
    /// The plant is inconsistent: no balanced flow agrees with the readings.
    Inconsistent = 26,
    /// The stream is observable or redundant, so that it has no rival flows.
    Determined = 27,
    /// The plant is consistent, so that there is nothing in dispute.
    Consistent = 28,
}

impl QuestionFault {
    /// The number that the refusal gives.
    pub fn number(self) -> u8
        ensures { result ≡ number self }
    {
        self as u8
    }
}
