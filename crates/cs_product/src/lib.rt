// The product of two matrices, after cs_matrix_ops.rs.
#![tactic(auto)]

mod accumulate;
mod columns;
mod gather;
mod plain;
pub mod product;
mod room;
mod sorting;
mod span;
mod sweep;
