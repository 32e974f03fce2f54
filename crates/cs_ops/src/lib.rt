// Operations on matrices and vectors, after cs_matrix_ops.rs.
#![tactic(auto)]

pub mod axpy;
pub mod scale;
