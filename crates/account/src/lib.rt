//! A month's account of one meter: its daily amounts, read from lines of text, and the running total.
#![tactic(auto)]

pub mod entry;
pub mod fault;
pub mod lines;
pub mod metered;
pub mod month;
pub mod rows;
#[cfg(test)]
mod tests;
