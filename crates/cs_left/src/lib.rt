// The left factoring, after `decompose_left_looking` of cs_matrix_cholesky.rs.
#![tactic(auto)]

mod column;
pub mod left;
mod mirror;
mod stray;
