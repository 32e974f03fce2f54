// The solve with the matrix transposed, in place.
ghost use Rattle.std.specs.Prelude.{◌≡◌, length, set};
ghost use Rattle.lists.specs.Calls.{outputs};
ghost use Rattle.lists.specs.Choices.{last_or};
ghost use Rattle.lists.specs.Folds.{over};
ghost use Rattle.cs_matrix.specs.Lent.{matrix_of};
ghost use Rattle.cs_solve.specs.Judge.{number, answer, lacking_columns, Passed};
ghost use Rattle.cs_solve.specs.TrSolve.{raise_at, transposed_at, transposed as transposedOf, Column};

use crate::Solved;
use crate::diagonal::value_at;
use crate::judge::{judge, last_lacking};
use cs_matrix::columns::column;
use cs_matrix::matrix::Matrix;
use cs_matrix::valid::ValidMatrix;
use lists::numbers::wide;

// b(j) after b(j) = b(j) - (value times b(i)) for the lower rows i of column j.
fn raised(j: usize, rows: &[u32], vals: &[f64], b: &[f64]) -> f64
    requires { Column j (length b.now) rows.now vals.now }
    ensures { set b.now j result ≡ over (raise_at j) rows.now vals.now b.now }
{
    let mut y = b[j];
    for (&row, &value) in rows.iter().zip(vals) {
        let i = wide(row);
        if j < i {
            y -= value * b[i];
        }
    }
    y
}

// The step of column j, whose diagonal is d.
fn transposed_at(j: usize, d: f64, rows: &[u32], vals: &[f64], b: &mut [f64])
    requires { Column j (length b.old) rows.now vals.now }
    ensures { b.new ≡ transposed_at j d rows.now vals.now b.old }
{
    let y = raised(j, rows, vals, b);
    b[j] = y / d;
}

// All columns, falling.
fn transposed(a: ValidMatrix<'_>, b: &mut [f64])
    requires { Passed (matrix_of a.matrix) (length b.old) }
    ensures { b.new ≡ transposedOf (matrix_of a.entry.matrix) b.old }
{
    for j in (0..a.matrix.pattern.ncols).rev() {
        let col = column(a, j);
        let d = value_at(j, col.rows, col.vals);
        transposed_at(j, d, col.rows, col.vals, b);
    }
}

// Solves with the lower triangle of a matrix transposed, the right side b in place. Alike the forward solve in its two tests alone: what one
// function over both would take are the search and the steps, which is all of it.
pub fn tr_solve_lower_triangular(a: Matrix<'_>, b: &mut [f64]) -> Solved
    ensures { let a = matrix_of a.entry in
        let old = b.old in
        (result ≡ answer (number a old) (last_or 0 (lacking_columns a))) × (b.new ≡ outputs (number a old) (transposedOf a old) old) }
{
    if let Err(refusal) = judge(a, b.len()) {
        return Solved::refused(refusal);
    }
    let valid = ValidMatrix { matrix: a };
    if let Some(column) = last_lacking(valid) {
        return Solved::lacking(column as u32);
    }
    transposed(valid, b);
    Solved::DONE
}
