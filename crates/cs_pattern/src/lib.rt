// The pattern of a Cholesky factor, after the symbolic half of cs_matrix_cholesky.rs: the elimination tree, the columns of U by
// walks up the tree, L as U transposed.
#![tactic(auto)]

pub mod analyse;
pub mod compare;
mod count;
mod fill;
mod look;
mod lower;
mod quick;
mod reach;
mod rows;
mod tree;
mod upper;
