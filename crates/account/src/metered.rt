//! The quantities that an account can be kept in.
ghost use Rattle.std.specs.Prelude.{◌≡◌, ℕ, List};
ghost use Rattle.account.specs.Headings.{mass_heading, totaliser_heading};
ghost use Rattle.account.specs.Texts.{WritesAdvance, WritesMass, Finds};

use quantity::Quantity;
use quantity::mass::Mass;
use quantity::totaliser::{MODULUS, Totaliser};

/// A quantity whose amounts an account's text writes.
pub trait Metered: Quantity {
    /// the line that heads an account which is kept in the quantity
    ghost heading: { List ℕ };

    /// the bytes of a text write the amount
    ghost writes: { List ℕ → Self → Type 0 };

    /// The line that heads an account which is kept in the quantity.
    fn heading() -> &'static str
        ensures { result.now ≡ heading };

    /// The amount that the text writes; none where it writes none.
    // Not `FromStr`: the bounds are the account's, and a text outside them has no reason to give.
    fn read(text: &str) -> Option<Self>
        ensures { Finds (writes text.now) result };
}

impl Metered for Totaliser {
    ghost heading = { totaliser_heading };

    ghost writes = { WritesAdvance };

    fn heading() -> &'static str {
        "quantity totaliser"
    }

    fn read(text: &str) -> Option<Totaliser> {
        text.parse()
            .ok()
            .filter(|advance| *advance < MODULUS)
            .map(Totaliser)
    }
}

impl Metered for Mass {
    ghost heading = { mass_heading };

    ghost writes = { WritesMass };

    fn heading() -> &'static str {
        "quantity mass"
    }

    fn read(text: &str) -> Option<Mass> {
        // A chain as for totalisers costs more instructions here.
        let mass = Mass(text.parse().ok()?);
        mass.is_bounded().then_some(mass)
    }
}
