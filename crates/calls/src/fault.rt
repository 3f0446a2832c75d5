//! Why calls are refused, and the number that each refusal gives.
ghost use Rattle.std.specs.Prelude.{◌≡◌};
ghost use Rattle.calls.specs.declared.fault.Fault.TheVariants.{OfPlant, OfSource, OfIsolation, OfQuestion};
ghost use Rattle.calls.specs.Refusals.{number};

pub use flows::fault::QuestionFault;

/// Why enter or strike is refused, with the number that it gives.
#[derive(Clone, Copy, PartialEq, Eq, Debug)]
pub enum PlantFault {
    /// The stream number is outside 1 to 1,024.
    NumberOutside = 1,
    /// A unit is above the plant's unit count.
    UnitOutside = 2,
    /// The number is in use.
    InUse = 21,
    /// The number is not in use.
    NotInUse = 22,
}

/// Why post or withdraw is refused, with the number that it gives.
#[derive(Clone, Copy, PartialEq, Eq, Debug)]
pub enum SourceFault {
    /// The stream number is outside 1 to the reach of the source.
    OutOfReach = 1,
    /// The number is held.
    Held = 23,
    /// There is no reading to withdraw.
    NoReading = 24,
    /// No lines are left.
    NoLines = 25,
}

/// Why isolate or restore is refused, with the number that it gives.
#[derive(Clone, Copy, PartialEq, Eq, Debug)]
pub enum IsolationFault {
    /// The stream number is outside 1 to the reach of the source.
    OutOfReach = 1,
    /// The number is held already, by this layer or below.
    Held = 23,
    /// The slip has another tally, or this layer itself does not hold its number.
    ForeignSlip = 29,
}

/// Why enter, strike, post, withdraw, isolate, restore or one of the four questions is refused.
#[derive(Clone, Copy, PartialEq, Eq, Debug)]
pub enum Fault {
    OfPlant(PlantFault),
    OfSource(SourceFault),
    OfIsolation(IsolationFault),
    OfQuestion(QuestionFault),
}

impl Fault {
    /// The number that the refusal gives.
    pub fn number(self) -> u8
        ensures { result ≡ number self }
    {
        match self {
            Fault::OfPlant(fault) => fault as u8,
            Fault::OfSource(fault) => fault as u8,
            Fault::OfIsolation(fault) => fault as u8,
            Fault::OfQuestion(fault) => fault.number(),
        }
    }
}

// An impl for each layer, by hand: a derive would not say in the contract which fault it gives.
impl From<PlantFault> for Fault {
    ghost from_gives = { λ f r. r ≡ OfPlant f };

    fn from(fault: PlantFault) -> Fault {
        Self::OfPlant(fault)
    }
}

impl From<SourceFault> for Fault {
    ghost from_gives = { λ f r. r ≡ OfSource f };

    fn from(fault: SourceFault) -> Fault {
        Self::OfSource(fault)
    }
}

impl From<IsolationFault> for Fault {
    ghost from_gives = { λ f r. r ≡ OfIsolation f };

    fn from(fault: IsolationFault) -> Fault {
        Self::OfIsolation(fault)
    }
}

impl From<QuestionFault> for Fault {
    ghost from_gives = { λ f r. r ≡ OfQuestion f };

    fn from(fault: QuestionFault) -> Fault {
        Self::OfQuestion(fault)
    }
}
