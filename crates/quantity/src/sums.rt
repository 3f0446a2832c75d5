//! Totals of amounts, written once for every quantity.
ghost use Rattle.std.specs.Prelude.{◌≡◌, ◌≤◌, All, map, length};
ghost use Rattle.quantity.specs.Group.{whole};
ghost use Rattle.quantity.specs.Sums.{sum_all};
ghost use Rattle.quantity.specs.Masses.{mass_model, Bounded};

use crate::Quantity;
use crate::mass::Mass;

/// The sum of the amounts; zero where there are none.
#[tactic(auto, using(crate::proofs::GroupSums::sum_take_more, crate::proofs::GroupSums::sum_take_all))]
pub fn total<Q: Quantity>(amounts: &[Q]) -> Q
    ensures { Q.model.means result ≡ sum_all Q.model.group (map Q.model.means amounts.now) }
{
    let mut sum = Q::zero();
    for amount in amounts {
        sum = sum.plus(*amount);
    }
    sum
}

// It stands beside `total`, which sees an amount only by the element that it means and can promise nothing of grams.
/// The sum of masses, modulo 2^64. Of at most 1,024 masses within 10^12 grams either way it is their sum over the whole
/// numbers: nothing has wrapped.
pub fn total_mass(masses: &[Mass]) -> Mass
    ensures wrapped { mass_model.means result
        ≡ sum_all mass_model.group (map mass_model.means masses.now) }
    ensures exact { length masses.now ≤ 1024
        → All (λ m. Bounded m.0) masses.now
        → result.0 ≡ sum_all whole (map (λ m. m.0) masses.now) }
{
    total(masses)
}
