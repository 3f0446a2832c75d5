//! The account itself: a row for each entry, with the running total.
ghost use Rattle.std.specs.Prelude.{◌≡◌, ◌≤◌, ◌↔◌, All, map, length, IfOk, IsTrue};
ghost use Rattle.quantity.specs.Group.{whole};
ghost use Rattle.quantity.specs.Masses.{mass_model, Bounded};
ghost use Rattle.quantity.specs.Sums.{sum_all};
ghost use Rattle.quantity.specs.Totalisers.{RollsOver};
ghost use Rattle.account.specs.Rows.{Keeps};

use crate::entry::Entry;
use quantity::Quantity;
use quantity::mass::Mass;
use quantity::totaliser::Totaliser;
use std::alloc::{AllocError, Global};

/// One day of the account.
#[derive(Clone, Copy, PartialEq, Eq, Debug)]
pub struct Row<Q> {
    pub day: u8,
    pub amount: Q,
    /// The month's total before this day.
    pub before: Q,
    /// The month's total with this day.
    pub total: Q,
}

impl Row<Totaliser> {
    /// Whether the counter passed 999,999 on this day. It stands at 0 as the month begins.
    pub fn rolled_over(&self) -> bool
        ensures { IsTrue result ↔ (RollsOver self.now.before self.now.amount) }
    {
        self.before.rolls_over(self.amount)
    }
}

/// A month's account: its rows by day, and the total of the month.
#[derive(PartialEq, Eq, Debug, Drop)]
pub struct Account<Q> {
    pub rows: Vec<Row<Q>>,
    pub total: Q,
}

impl<Q: Quantity> Account<Q> {
    /// The account of the entries, in their order.
    #[tactic(auto, using(crate::proofs::Rowing::sofar_all))]
    pub fn new(heap: Global, entries: &[Entry<Q>]) -> Result<Account<Q>, AllocError>
        ensures { IfOk result (λ a. Keeps Q.model entries.now a.rows.items a.total) }
    {
        let mut rows = Vec::with_capacity(heap, entries.len())?;
        let mut total = Q::zero();
        for &Entry { day, amount } in entries {
            let before = total;
            total = before.plus(amount);
            rows.push(Row {
                day,
                amount,
                before,
                total,
            })?;
        }
        Ok(Account { rows, total })
    }
}

impl Account<Mass> {
    // It stands beside `new`, which sees an amount only by the element that it means and can promise nothing of grams.
    /// The account of masses. Of at most 1,024 masses within 10^12 grams either way its total is their sum over the whole
    /// numbers: nothing has wrapped.
    pub fn of_masses(heap: Global, entries: &[Entry<Mass>]) -> Result<Account<Mass>, AllocError>
        ensures kept { IfOk result (λ a. Keeps mass_model entries.now a.rows.items a.total) }
        ensures exact { IfOk result (λ a. length entries.now ≤ 1024
            → All (λ e. Bounded e.amount.0) entries.now
            → a.total.0 ≡ sum_all whole (map (λ e. e.amount.0) entries.now)) }
    {
        Account::new(heap, entries)
    }
}
