//! Quantities that can stand in a sheet, as eight bytes.
ghost use Rattle.std.specs.Prelude.{◌≡◌, is_some};
ghost use Rattle.quantity.specs.Sheet.{SheetForm, BytesOf, mass_form, totaliser_form};

use crate::Quantity;
use crate::mass::Mass;
use crate::totaliser::{MODULUS, Totaliser};

/// A quantity that can stand in a sheet.
///
/// An implementation gives its `form`: the code that names the quantity in a sheet's head, and the amount that eight
/// bytes hold, none where they are outside its bounds. The code is a byte of the sheet, and a type has one.
// Bytes outside the bounds have no amount, which is no error with a reason: so `from_bytes` and not `TryFrom`.
pub trait SheetQuantity: Quantity {
    ghost form: { SheetForm Self };

    /// The code that names the quantity in a sheet's head.
    fn code() -> u8
        ensures { result ≡ form.code };

    /// The amount that the bytes hold; none where they are outside the bounds.
    fn from_bytes(bytes: [u8; 8]) -> Option<Self>
        ensures { result ≡ form.holds bytes };

    /// The only eight bytes that stand for the amount; none where no eight bytes within the bounds do.
    fn to_bytes(self) -> Option<[u8; 8]>
        ensures { BytesOf Self.Quantity.model form self result };

    /// Whether the bytes are within the bounds.
    fn fits(bytes: [u8; 8]) -> bool
        ensures { result ≡ is_some (form.holds bytes) }
    {
        Self::from_bytes(bytes).is_some()
    }
}

/// The code of masses.
const MASS_CODE: u8 = 1;

/// The code of totalisers.
const TOTALISER_CODE: u8 = 2;

impl SheetQuantity for Mass {
    ghost form = { mass_form };

    fn code() -> u8 {
        MASS_CODE
    }

    fn from_bytes(bytes: [u8; 8]) -> Option<Mass> {
        let amount = Mass(i64::from_le_bytes(bytes));
        amount.is_bounded().then_some(amount)
    }

    fn to_bytes(self) -> Option<[u8; 8]> {
        self.is_bounded().then_some(self.0.to_le_bytes())
    }
}

impl SheetQuantity for Totaliser {
    ghost form = { totaliser_form };

    fn code() -> u8 {
        TOTALISER_CODE
    }

    fn from_bytes(bytes: [u8; 8]) -> Option<Totaliser> {
        let advance = u32::try_from(u64::from_le_bytes(bytes)).ok()?;
        (advance < MODULUS).then_some(Totaliser(advance))
    }

    fn to_bytes(self) -> Option<[u8; 8]> {
        Some(u64::from(self.advance()).to_le_bytes())
    }
}
