// The forward solve with a sparse right side.
ghost use Rattle.std.specs.Prelude.{◌≡◌};
ghost use Rattle.lists.specs.Calls.{lowest, leaves, lent, scratch, outputs};
ghost use Rattle.lists.specs.Choices.{first_or};
ghost use Rattle.lists.specs.Refusals.{numbered};
ghost use Rattle.cs_matrix.specs.Lent.{matrix_of, vector_of};
ghost use Rattle.cs_matrix.specs.Matrix.{vector, needed};
ghost use Rattle.cs_solve.specs.Judge.{answer};
ghost use Rattle.cs_solve_cs.specs.Agree.{Promised};
ghost use Rattle.cs_solve_cs.specs.SolveCs.{judged_cs, stored, written, solution, later, lacking_reached, number};
ghost use Rattle.cs_solve_cs.specs.Steps.{Ready};

use crate::reach::reach;
use crate::steps::{forward, put};
use cs_matrix::check::{check, check_vector};
use cs_matrix::matrix::{Matrix, Pattern, Vector};
use cs_matrix::valid::ValidMatrix;
use cs_solve::Solved;
use lists::clear::{clear_scratch, fill, too_narrow};
use lists::refusal::{Refusal, lower};

// What refuses a matrix with a right side first: 1 to 5, or nothing.
fn judge(a: Matrix<'_>, b: Vector<'_>) -> Result<(), Refusal>
    ensures { numbered result ≡ lowest (judged_cs (matrix_of a.entry) (vector_of b.entry)) }
{
    let Pattern { nrows, ncols, .. } = a.pattern;
    let refused = lower(check(a), check_vector(b));
    if nrows != ncols {
        return lower(refused, Err(Refusal::Disagree));
    }
    refused
}

// 7, 10 or the result, on scratch of as many elements as there are columns, which is cleared.
fn serve(
    a: ValidMatrix<'_>,
    b: Vector<'_>,
    xi: &mut [u32],
    xv: &mut [f64],
    w: &mut [u32],
    x: &mut [f64],
) -> Solved
    requires { Ready (matrix_of a.matrix) (vector_of b) w.old x.old }
    ensures { let a = matrix_of a.entry.matrix in
        let b = vector_of b.entry in
        let old = stored xi.old xv.old in
        let new = stored xi.new xv.new in
        let m = lowest (later a b old) in
        (result ≡ answer m (first_or 0 (lacking_reached a b))) × (new ≡ outputs m (written (solution a b) old) old) }
{
    let found = reach(a, b.i, w);
    if xi.len() < found.count || xv.len() < found.count {
        return Solved::refused(Refusal::NoRoom);
    }
    if let Some(column) = found.lacking {
        return Solved::lacking(column as u32);
    }
    put(b.i, b.v, x);
    forward(a, w, x, xi, xv);
    Solved::DONE
}

// Solves with the lower triangle of a matrix, the right side bi and bv, the result in xi and xv.
pub fn solve_lower_triangular_cs(
    a: Matrix<'_>,
    bi: &[u32],
    bv: &[f64],
    xi: &mut [u32],
    xv: &mut [f64],
    w1: &mut [u32],
    w2: &mut [u32],
    w3: &mut [u32],
    x: &mut [f64],
) -> Solved
    ensures { let a = matrix_of a.entry in
        let b = vector a.pattern.nrows bi.now bv.now in
        let old = lent (stored xi.old xv.old) (scratch w1.old w2.old w3.old x.old) in
        let new = lent (stored xi.new xv.new) (scratch w1.new w2.new w3.new x.new) in
        (result ≡ answer (number a b old) (first_or 0 (lacking_reached a b))) ×
        (new ≡ leaves (number a b old) (needed a.pattern) (written (solution a b) old.out) old) × (number a b old ≡ 0 → Promised a b) }
{
    let Pattern { nrows, ncols, .. } = a.pattern;
    let b = Vector {
        n: nrows,
        i: bi,
        v: bv,
    };
    if let Err(refusal) = judge(a, b) {
        return Solved::refused(refusal);
    }
    let need = ncols + 1;
    if too_narrow(need, w1, w2, w3, x) {
        return Solved::refused(Refusal::NoScratch);
    }
    clear_scratch(need, w1, w2, w3, x);
    let valid = ValidMatrix { matrix: a };
    let served = serve(valid, b, xi, xv, &mut w1[0..ncols], &mut x[0..ncols]);
    fill(0, need, w1);
    fill(0.0, need, x);
    served
}
