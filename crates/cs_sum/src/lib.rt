// The sum of two matrices, after cs_matrix_ops.rs.
#![tactic(auto)]

mod alike;
mod merge;
pub mod sum;
