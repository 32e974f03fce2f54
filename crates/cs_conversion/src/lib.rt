// Matrices from other forms, after cs_matrix_conversion.rs.
#![tactic(auto)]

pub mod assembly;
mod ordered;
mod pointers;
mod sorting;
