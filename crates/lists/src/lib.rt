// What every crate stands on: small total functions here, the definitions and laws on lists in specs/ and proofs/.
#![tactic(auto)]

pub mod clear;
pub mod numbers;
pub mod order;
pub mod refusal;
pub mod sides;
pub mod sums;
pub mod tight;
