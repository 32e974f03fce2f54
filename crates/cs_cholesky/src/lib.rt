// What both factorings share, after cs_matrix_cholesky.rs: the answer, and the judging of a matrix with a lent analysis.
#![tactic(auto)]

ghost use Rattle.std.specs.Prelude.{◌≡◌};
ghost use Rattle.lists.specs.Calls.{none};
ghost use Rattle.lists.specs.Refusals.{number_of};
ghost use Rattle.cs_cholesky.specs.Factor.{factored};

pub mod judge;

use lists::refusal::Refusal;

// A factoring's answer: its number, and with 11 the column and its pivot, else 0 and +0.0. C reads it as it stands, so the refusal is its number.
#[repr(C)]
#[derive(Clone, Copy)]
pub struct Factored {
    pub number: u32,
    pub column: u32,
    pub pivot: f64,
}

impl Factored {
    // Nothing refused.
    pub const DONE: Factored = Factored {
        number: 0,
        column: 0,
        pivot: 0.0,
    };

    // The answer that refuses, with no column and no pivot.
    pub fn refused(refusal: Refusal) -> Factored
        ensures { result ≡ factored (number_of refusal) 0 none }
    {
        judge::refused(refusal.number())
    }

    // The answer that names a column whose pivot is not above zero, or is NaN.
    pub fn stopped(column: u32, pivot: f64) -> Factored
        ensures { result ≡ factored 11 column pivot }
    {
        Factored {
            number: Refusal::BadPivot.number(),
            column,
            pivot,
        }
    }
}
