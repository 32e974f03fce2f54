// The forward solve with a sparse right side, after cs_matrix_solve.rs.
#![tactic(auto)]

mod reach;
pub mod solve_cs;
mod steps;
