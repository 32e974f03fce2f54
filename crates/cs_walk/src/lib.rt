// A walker over one column of a lent matrix, after cs_matrix.rs.
#![tactic(auto)]

pub mod column_entries;
