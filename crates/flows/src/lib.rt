//! What the balances of a plant force: flows, parts, closed paths and classes of streams, over any quantity.
//!
//! The crate has no algorithm. Its definitions are in `specs/`; its theorems are the contracts of the functions in
//! [`theorems`].
#![tactic(auto)]

pub mod class;
pub mod ends;
pub mod fault;
pub mod theorems;
pub mod worked;
