// The transpose of a matrix, after cs_matrix.rs.
#![tactic(auto)]

pub mod transpose;
