//! What the calls of a plant book share: why they are refused, and the number that each refusal gives.
#![tactic(auto)]

pub mod fault;
