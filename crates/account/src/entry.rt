//! An entry of an account.

/// What a meter advanced on one day of the month.
#[derive(Clone, Copy, PartialEq, Eq, Debug)]
pub struct Entry<Q> {
    pub day: u8,
    pub amount: Q,
}
