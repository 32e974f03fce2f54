// The triangular solves with a dense right side, after cs_matrix_solve.rs.
#![tactic(auto)]

ghost use Rattle.std.specs.Prelude.{◌≡◌};
ghost use Rattle.lists.specs.Refusals.{number_of};
ghost use Rattle.cs_solve.specs.Judge.{solved};

pub mod diagonal;
mod judge;
pub mod solve;
pub mod tr_solve;

use lists::refusal::Refusal;

// A solve's answer: its number, and with 10 the column, else 0. C reads it as it stands, so the refusal is its number.
#[repr(C)]
#[derive(Clone, Copy)]
pub struct Solved {
    pub number: u32,
    pub column: u32,
}

impl Solved {
    // Nothing refused.
    pub const DONE: Solved = Solved {
        number: 0,
        column: 0,
    };

    // The answer that refuses, with no column.
    pub fn refused(refusal: Refusal) -> Solved
        ensures { result ≡ solved (number_of refusal) 0 }
    {
        Solved {
            number: refusal.number(),
            column: 0,
        }
    }

    // The answer that names a column whose diagonal is absent or zero.
    pub fn lacking(column: u32) -> Solved
        ensures { result ≡ solved 10 column }
    {
        Solved {
            number: Refusal::NoDiagonal.number(),
            column,
        }
    }
}
