// The forward solve with a sparse right side.
ghost use Rattle.std.specs.Prelude.{◌≡◌};
ghost use Rattle.lists.specs.Calls.{leaves, lent, scratch};
ghost use Rattle.lists.specs.Choices.{first_or};
ghost use Rattle.cs_matrix.specs.Matrix.{matrix, vector, needed};
ghost use Rattle.cs_solve.specs.Judge.{answer};
ghost use Rattle.cs_solve_cs.specs.Agree.{Promised};
ghost use Rattle.cs_solve_cs.specs.SolveCs.{stored, written, solution, lacking_reached, number};

use cs_matrix::matrix::{Matrix, Pattern};
use cs_solve::Solved;

// Solves with the lower triangle of a matrix, the right side bi and bv, the result in xi and xv.
#[unsafe(no_mangle)]
pub extern "C" fn siwkatenor_solve_lower_triangular_cs(
    nrows: usize,
    ncols: usize,
    p: &[u32],
    i: &[u32],
    v: &[f64],
    bi: &[u32],
    bv: &[f64],
    xi: &mut [u32],
    xv: &mut [f64],
    w1: &mut [u32],
    w2: &mut [u32],
    w3: &mut [u32],
    x: &mut [f64],
) -> Solved
    ensures { let a = matrix nrows ncols p.now i.now v.now in
        let b = vector nrows bi.now bv.now in
        let old = lent (stored xi.old xv.old) (scratch w1.old w2.old w3.old x.old) in
        let new = lent (stored xi.new xv.new) (scratch w1.new w2.new w3.new x.new) in
        (result ≡ answer (number a b old) (first_or 0 (lacking_reached a b)))
        × (new ≡ leaves (number a b old) (needed a.pattern) (written (solution a b) old.out) old)
        × (number a b old ≡ 0 → Promised a b) }
{
    let pattern = Pattern { nrows, ncols, p, i };
    cs_solve_cs::solve_cs::solve_lower_triangular_cs(
        Matrix { pattern, v },
        bi,
        bv,
        xi,
        xv,
        w1,
        w2,
        w3,
        x,
    )
}
