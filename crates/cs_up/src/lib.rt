// The up factoring, after cs_matrix_cholesky.rs.
#![tactic(auto)]

mod row;
mod start;
pub mod up;
