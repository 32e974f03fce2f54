// What refuses a dense solve: 1 to 5, and 10.
ghost use Rattle.std.specs.Prelude.{◌≡◌};
ghost use Rattle.lists.specs.Calls.{lowest};
ghost use Rattle.lists.specs.Choices.{first_or, last_or};
ghost use Rattle.lists.specs.Refusals.{numbered};
ghost use Rattle.cs_matrix.specs.Lent.{matrix_of};
ghost use Rattle.cs_solve.specs.Judge.{judged_solve, lacking_columns, Names};

use crate::diagonal::lacks;
use cs_matrix::check::check;
use cs_matrix::matrix::{Matrix, Pattern};
use cs_matrix::valid::ValidMatrix;
use lists::refusal::{Refusal, lower};

// What refuses a matrix with a right side of m elements first: 1 to 5, or nothing.
pub fn judge(a: Matrix<'_>, m: usize) -> Result<(), Refusal>
    ensures { numbered result ≡ lowest (judged_solve (matrix_of a.entry) m) }
{
    let Pattern { nrows, ncols, .. } = a.pattern;
    let refused = check(a);
    if nrows != ncols || m != ncols {
        return lower(refused, Err(Refusal::Disagree));
    }
    refused
}

// The lowest column whose diagonal is absent or zero.
pub fn first_lacking(a: ValidMatrix<'_>) -> Option<usize>
    ensures { let a = matrix_of a.entry.matrix in let l = lacking_columns a in Names a.pattern.ncols l (first_or 0 l) result }
{
    (0..a.matrix.pattern.ncols).find(|&j| lacks(a, j))
}

// The highest column whose diagonal is absent or zero.
pub fn last_lacking(a: ValidMatrix<'_>) -> Option<usize>
    ensures { let a = matrix_of a.entry.matrix in let l = lacking_columns a in Names a.pattern.ncols l (last_or 0 l) result }
{
    (0..a.matrix.pattern.ncols).rev().find(|&j| lacks(a, j))
}
