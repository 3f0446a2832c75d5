//! The two ends of a stream.

/// The unit that a stream leaves and the unit that it enters; they may be one.
#[derive(Clone, Copy, PartialEq, Eq, Debug)]
pub struct Ends {
    pub from: u16,
    pub to: u16,
}
