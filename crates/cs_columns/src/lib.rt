// What the sum and the product share: two operands judged together, and the room for a result that is written column by column.
#![tactic(auto)]

pub mod judge;
pub mod rows;
