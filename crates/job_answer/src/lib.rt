// The answer of a job, written: marks, numbers and values as bytes, the lowest first.
#![tactic(auto)]

mod put;
pub mod write;
