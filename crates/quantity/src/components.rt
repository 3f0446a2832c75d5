//! Components: four masses side by side.
ghost use Rattle.std.specs.Prelude.{Some};
ghost use Rattle.quantity.specs.Masses.{components_model, components_text};

use crate::Quantity;
use crate::mass::Mass;
use std::fmt;

/// The masses of four components, summed one by one.
#[derive(Clone, Copy, PartialEq, Eq, Debug)]
pub struct Components {
    pub first: Mass,
    pub second: Mass,
    pub third: Mass,
    pub fourth: Mass,
}

impl Components {
    // What `f` makes of each mass.
    fn map<F: Fn(Mass) -> Mass>(self, f: F) -> Components
        requires { F.IsAlwaysCallable f }
        ensures first { F.post f self.first result.first }
        ensures second { F.post f self.second result.second }
        ensures third { F.post f self.third result.third }
        ensures fourth { F.post f self.fourth result.fourth }
    {
        Components {
            first: f(self.first),
            second: f(self.second),
            third: f(self.third),
            fourth: f(self.fourth),
        }
    }

    // What `f` makes of each mass of one and the same mass of the other.
    fn zip_with<F: Fn(Mass, Mass) -> Mass>(self, other: Components, f: F) -> Components
        requires { F.IsAlwaysCallable f }
        ensures first { F.post f self.first other.first result.first }
        ensures second { F.post f self.second other.second result.second }
        ensures third { F.post f self.third other.third result.third }
        ensures fourth { F.post f self.fourth other.fourth result.fourth }
    {
        Components {
            first: f(self.first, other.first),
            second: f(self.second, other.second),
            third: f(self.third, other.third),
            fourth: f(self.fourth, other.fourth),
        }
    }
}

impl Quantity for Components {
    ghost model = { components_model };

    fn zero() -> Components {
        let none = Mass::zero();
        Components {
            first: none,
            second: none,
            third: none,
            fourth: none,
        }
    }

    fn plus(self, other: Components) -> Components {
        self.zip_with(other, Mass::plus)
    }

    fn negative(self) -> Components {
        self.map(Mass::negative)
    }

    #[tactic(auto, using(crate::proofs::Residues::grams_test))]
    fn same(self, other: Components) -> bool {
        self == other
    }

    fn nonzero() -> Components {
        Components {
            first: Mass::nonzero(),
            ..Components::zero()
        }
    }
}

/// The four masses in decimal, a space between two.
impl fmt::Display for Components {
    ghost output = { λ c. Some (components_text c) };

    fn fmt<W: fmt::Write>(&self, f: &mut fmt::Formatter<W>) -> fmt::Result {
        write!(
            f,
            "{} {} {} {}",
            self.first, self.second, self.third, self.fourth
        )
    }
}
