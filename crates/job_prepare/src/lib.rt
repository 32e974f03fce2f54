// A job's entries assembled and analysed.
#![tactic(auto)]

pub mod prepare;
