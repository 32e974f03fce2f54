// The library for C: each public call under its name with the prefix siwkatenor_, a slice as a pointer and a length, an answer
// by value, a refusal as its number. Each contract is that of the call that it hands on to. The header is include/siwkatenor.h.
#![tactic(auto)]

pub mod analyse;
pub mod compare;
pub mod conversion;
pub mod left;
pub mod matrix;
pub mod ops;
pub mod product;
pub mod roots;
pub mod solve;
pub mod solve_cs;
pub mod sum;
pub mod up;
