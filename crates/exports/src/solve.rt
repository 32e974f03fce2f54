// The triangular solves with a dense right side.
ghost use Rattle.std.specs.Prelude.{◌≡◌};
ghost use Rattle.lists.specs.Calls.{outputs};
ghost use Rattle.lists.specs.Choices.{first_or, last_or};
ghost use Rattle.cs_matrix.specs.Matrix.{matrix};
ghost use Rattle.cs_solve.specs.Judge.{number, answer, lacking_columns};
ghost use Rattle.cs_solve.specs.Solve.{forward as forwardOf};
ghost use Rattle.cs_solve.specs.TrSolve.{transposed as transposedOf};

use cs_matrix::matrix::{Matrix, Pattern};
use cs_solve::Solved;

// Solves with the lower triangle of a matrix, the right side b in place.
#[unsafe(no_mangle)]
pub extern "C" fn siwkatenor_solve_lower_triangular(
    nrows: usize,
    ncols: usize,
    p: &[u32],
    i: &[u32],
    v: &[f64],
    b: &mut [f64],
) -> Solved
    ensures { let a = matrix nrows ncols p.now i.now v.now in
        let old = b.old in
        (result ≡ answer (number a old) (first_or 0 (lacking_columns a))) × (b.new ≡ outputs (number a old) (forwardOf a old) old) }
{
    let pattern = Pattern { nrows, ncols, p, i };
    cs_solve::solve::solve_lower_triangular(Matrix { pattern, v }, b)
}

// Solves with the lower triangle of a matrix transposed, the right side b in place.
#[unsafe(no_mangle)]
pub extern "C" fn siwkatenor_tr_solve_lower_triangular(
    nrows: usize,
    ncols: usize,
    p: &[u32],
    i: &[u32],
    v: &[f64],
    b: &mut [f64],
) -> Solved
    ensures { let a = matrix nrows ncols p.now i.now v.now in
        let old = b.old in
        (result ≡ answer (number a old) (last_or 0 (lacking_columns a))) × (b.new ≡ outputs (number a old) (transposedOf a old) old) }
{
    let pattern = Pattern { nrows, ncols, p, i };
    cs_solve::tr_solve::tr_solve_lower_triangular(Matrix { pattern, v }, b)
}
