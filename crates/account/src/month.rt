//! A month's entries, in the quantity that the heading names.
ghost use Rattle.std.specs.Prelude.{◌↔◌, IsTrue, IfOk, IfErr};
ghost use Rattle.account.specs.Lines.{texts};
ghost use Rattle.account.specs.Months.{Headed, MonthOf, NoMonth};

use crate::entry::Entry;
use crate::fault::ReadError;
use crate::lines::read_entries;
use crate::metered::Metered;
use quantity::mass::Mass;
use quantity::totaliser::Totaliser;
use std::alloc::Global;

/// The entries of a month.
#[derive(Debug, Drop)]
pub enum Month {
    /// The advances of a six-digit roll-over counter.
    Advances(Vec<Entry<Totaliser>>),
    /// Masses, in grams.
    Masses(Vec<Entry<Mass>>),
}

// Whether the first line is the heading of the quantity.
fn is_headed<Q: Metered>(lines: &[&str]) -> bool
    ensures { IsTrue result ↔ (Headed Q.heading (texts lines.now)) }
{
    lines.first().is_some_and(|first| *first == Q::heading())
}

/// The entries that the lines give. They are masses where the first line is `quantity mass`; else they are advances of a
/// counter, whether or not the first line is `quantity totaliser`.
pub fn read_month(heap: Global, lines: &[&str]) -> Result<Month, ReadError>
    ensures read { IfOk result (MonthOf (texts lines.now)) }
    ensures refused { IfErr result (NoMonth (texts lines.now)) }
{
    if is_headed::<Mass>(lines) {
        read_entries(heap, lines).map(Month::Masses)
    } else {
        read_entries(heap, lines).map(Month::Advances)
    }
}
