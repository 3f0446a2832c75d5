//! Masses: signed counts of grams that wrap.
ghost use Rattle.std.specs.Prelude.{◌≡◌, Some};
ghost use Rattle.std.specs.Fmt.{signed_decimal};
ghost use Rattle.quantity.specs.Masses.{mass_model, bounded};

use crate::Quantity;
use std::fmt;

/// The largest count of grams, either way, that a sheet holds.
const BOUND: i64 = 1_000_000_000_000;

/// A signed count of grams. It means that count modulo 2^64: sums and negatives wrap.
#[derive(Clone, Copy, PartialEq, Eq, Debug)]
pub struct Mass(pub i64);

impl Mass {
    /// Whether the mass is at most 10^12 grams, either way.
    pub fn is_bounded(self) -> bool
        ensures { result ≡ bounded self.0 }
    {
        (-BOUND..=BOUND).contains(&self.0)
    }
}

impl Quantity for Mass {
    ghost model = { mass_model };

    fn zero() -> Mass {
        Mass(0)
    }

    #[tactic(auto, using(crate::proofs::Residues::grams_plus))]
    fn plus(self, other: Mass) -> Mass {
        Mass(self.0.wrapping_add(other.0))
    }

    #[tactic(auto, using(crate::proofs::Residues::grams_minus))]
    fn negative(self) -> Mass {
        Mass(self.0.wrapping_neg())
    }

    #[tactic(auto, using(crate::proofs::Residues::grams_test))]
    fn same(self, other: Mass) -> bool {
        self == other
    }

    #[tactic(auto, using(crate::proofs::Residues::one_gram))]
    fn nonzero() -> Mass {
        Mass(1)
    }
}

/// The grams, in decimal.
impl fmt::Display for Mass {
    ghost output = { λ m. Some (signed_decimal m.0) };

    fn fmt<W: fmt::Write>(&self, f: &mut fmt::Formatter<W>) -> fmt::Result {
        write!(f, "{}", self.0)
    }
}
