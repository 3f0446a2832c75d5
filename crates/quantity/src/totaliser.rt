//! Totalisers: advances of a six-digit roll-over counter.
ghost use Rattle.std.specs.Prelude.{◌≡◌, ◌+◌, ◌-◌, ◌%◌, Some, decimal, IsTrue, ◌↔◌};
ghost use Rattle.quantity.specs.Totalisers.{modulus, taken, advances, advance_of, totaliser_model, RollsOver};

use crate::Quantity;
use std::fmt;

/// The number of steps after which the counter shows the same six digits again.
pub const MODULUS: u32 = 1_000_000;

/// The advance of a six-digit roll-over counter, from 0 to 999,999.
///
/// It is a plain number, so that tables can hold it: a number above 999,999 is taken as the advance 0 wherever it
/// stands. There is no `==`, which would tell such a number from 0; use [`Quantity::same`].
#[derive(Clone, Copy, Debug)]
pub struct Totaliser(pub u32);

impl Totaliser {
    /// The advance that the number is taken as, from 0 to 999,999.
    pub fn advance(self) -> u32
        ensures { result ≡ taken self.0 }
    {
        if self.0 < MODULUS { self.0 } else { 0 }
    }

    /// Whether a counter that stands here passes 999,999 when it moves on by `more`.
    pub fn rolls_over(self, more: Totaliser) -> bool
        ensures { IsTrue result ↔ RollsOver self more }
    {
        self.advance() + more.advance() >= MODULUS
    }
}

impl Quantity for Totaliser {
    ghost model = { totaliser_model };

    fn zero() -> Totaliser
        ensures means { advance_of result.0 ≡ advances.zero }
        ensures value { result.0 ≡ 0 }
    {
        Totaliser(0)
    }

    /// The remainder of the plain sum by 1,000,000.
    #[tactic(auto, using(crate::proofs::Residues::advance_plus))]
    fn plus(self, other: Totaliser) -> Totaliser
        ensures means { advance_of result.0
            ≡ advances.plus (advance_of self.0) (advance_of other.0) }
        ensures value { result.0 ≡ (taken self.0 + taken other.0) % modulus }
    {
        Totaliser((self.advance() + other.advance()) % MODULUS)
    }

    /// What is missing to 1,000,000; of 0 it is 0.
    #[tactic(auto, using(crate::proofs::Residues::advance_minus))]
    fn negative(self) -> Totaliser
        ensures means { advance_of result.0 ≡ advances.minus (advance_of self.0) }
        ensures value { result.0 ≡ (modulus - taken self.0) % modulus }
    {
        Totaliser((MODULUS - self.advance()) % MODULUS)
    }

    #[tactic(auto, using(crate::proofs::Residues::advance_test))]
    fn same(self, other: Totaliser) -> bool {
        self.advance() == other.advance()
    }

    #[tactic(auto, using(crate::proofs::Residues::one_step))]
    fn nonzero() -> Totaliser {
        Totaliser(1)
    }
}

/// The advance, in decimal: a number above 999,999 is written as 0.
impl fmt::Display for Totaliser {
    ghost output = { λ t. Some (decimal (taken t.0)) };

    fn fmt<W: fmt::Write>(&self, f: &mut fmt::Formatter<W>) -> fmt::Result {
        write!(f, "{}", self.advance())
    }
}
