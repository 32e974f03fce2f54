// A matrix in compressed columns: what a valid one is, and the check that tells, after cs_matrix.rs.
#![tactic(auto)]

pub mod check;
pub mod columns;
pub mod matrix;
pub mod room;
pub mod square;
pub mod valid;
