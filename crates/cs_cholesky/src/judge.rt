// Numbers 1 to 8 of a matrix with a lent analysis, and the answer that refuses.
ghost use Rattle.std.specs.Prelude.{◌≡◌};
ghost use Rattle.lists.specs.Calls.{lowest, none, scratch, worked};
ghost use Rattle.lists.specs.Refusals.{numbered};
ghost use Rattle.cs_matrix.specs.Lent.{matrix_of};
ghost use Rattle.cs_matrix.specs.Matrix.{needed};
ghost use Rattle.cs_pattern.specs.Lent.{analysis_of};
ghost use Rattle.cs_cholesky.specs.Factor.{factored, judged_factor};

use crate::Factored;
use cs_matrix::matrix::Matrix;
use cs_matrix::square::check_square;
use cs_pattern::compare::{Analysis, compare};
use lists::refusal::{Refusal, lower};

// The answer with a number that carries no column and no pivot, whatever the number.
pub fn refused(number: u32) -> Factored
    ensures { result ≡ factored number 0 none }
{
    Factored {
        number,
        column: 0,
        pivot: 0.0,
    }
}

// What refuses a matrix with a lent analysis first, where L's values have the length room: 1 to 8, or nothing. Values that are too
// few or too many are 2, below all that the pattern is judged for behind it.
pub fn judge(
    a: Matrix<'_>,
    room: usize,
    given: Analysis<'_>,
    w1: &mut [u32],
    w2: &mut [u32],
    w3: &mut [u32],
    x: &mut [f64],
) -> Result<(), Refusal>
    ensures { let a = matrix_of a.entry in
        let given = analysis_of given.entry in
        let old = scratch w1.old w2.old w3.old x.old in
        let new = scratch w1.new w2.new w3.new x.new in
        (numbered result ≡ lowest (judged_factor a given room old)) × (new ≡ worked (numbered result) (needed a.pattern) old) }
{
    let Matrix { pattern, v } = a;
    if v.len() != pattern.i.len() {
        return lower(check_square(pattern), Err(Refusal::Disagree));
    }
    compare(pattern, room, given, w1, w2, w3, x)
}
