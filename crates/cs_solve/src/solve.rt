// The forward solve, in place.
ghost use Rattle.std.specs.Prelude.{◌≡◌, true, length};
ghost use Rattle.std.specs.Float.{binary64};
ghost use Rattle.std.specs.Float.Ieee.{sub, mul};
ghost use Rattle.lists.specs.Calls.{outputs};
ghost use Rattle.lists.specs.Choices.{first_or};
ghost use Rattle.lists.specs.Folds.{over};
ghost use Rattle.lists.specs.Order.{rises};
ghost use Rattle.lists.specs.Runs.{zipped};
ghost use Rattle.cs_matrix.specs.Lent.{matrix_of};
ghost use Rattle.cs_solve.specs.Judge.{number, answer, lacking_columns, Passed};
ghost use Rattle.cs_solve.specs.Solve.{lower_at, forward_at, forward as forwardOf};
ghost use Rattle.cs_solve.specs.TrSolve.{Column};

use crate::Solved;
use crate::diagonal::value_at;
use crate::judge::{first_lacking, judge};
use cs_matrix::columns::column;
use cs_matrix::matrix::Matrix;
use cs_matrix::valid::ValidMatrix;
use lists::numbers::wide;
use lists::tight::tight;

// b(i) = b(i) - (x times value) for the lower rows i of column j. Cut to one length, as two lengths are two tests at each row.
fn lower_rows(j: usize, x: f64, rows: &[u32], vals: &[f64], b: &mut [f64])
    ensures { b.new ≡ over (lower_at j x) rows.now vals.now b.old }
{
    let n = rows.len().min(vals.len());
    for (&row, &value) in rows[..n].iter().zip(&vals[..n]) {
        let i = wide(row);
        if j < i && i < b.len() {
            b[i] -= x * value;
        }
    }
}

// b(k) = b(k) - (x times value), place by place.
fn lower_run(x: f64, vals: &[f64], b: &mut [f64])
    ensures { b.new ≡ zipped (λ y v. sub binary64 y (mul binary64 x v)) b.old vals.now }
{
    for k in 0..vals.len().min(b.len()) {
        b[k] -= x * vals[k];
    }
}

// The same as lower_rows where the rows rise. Those behind a diagonal that stands first may be a run, which is one part of b;
// few rows gain nothing by it.
fn lower_column(j: usize, x: f64, rows: &[u32], vals: &[f64], b: &mut [f64])
    requires { Column j (length b.old) rows.now vals.now × (rises rows.now ≡ true) }
    ensures { b.new ≡ over (lower_at j x) rows.now vals.now b.old }
{
    let n = rows.len();
    if n > 8 && wide(rows[0]) == j && tight(&rows[1..n]) {
        let first = wide(rows[1]);
        lower_run(x, &vals[1..n], &mut b[first..first + (n - 1)]);
        return;
    }
    lower_rows(j, x, rows, vals, b);
}

// The step of column j, whose diagonal is d.
pub fn forward_at(j: usize, d: f64, rows: &[u32], vals: &[f64], b: &mut [f64])
    ensures { b.new ≡ forward_at j d rows.now vals.now b.old }
{
    if j < b.len() {
        let x = b[j] / d;
        b[j] = x;
        lower_rows(j, x, rows, vals, b);
    }
}

// The same where the rows rise and are places of b.
fn forward_column(j: usize, d: f64, rows: &[u32], vals: &[f64], b: &mut [f64])
    requires { Column j (length b.old) rows.now vals.now × (rises rows.now ≡ true) }
    ensures { b.new ≡ forward_at j d rows.now vals.now b.old }
{
    let value = b[j] / d;
    b[j] = value;
    lower_column(j, value, rows, vals, b);
}

// All columns, rising.
fn forward(a: ValidMatrix<'_>, b: &mut [f64])
    requires { Passed (matrix_of a.matrix) (length b.old) }
    ensures { b.new ≡ forwardOf (matrix_of a.entry.matrix) b.old }
{
    for j in 0..a.matrix.pattern.ncols {
        let col = column(a, j);
        let d = value_at(j, col.rows, col.vals);
        forward_column(j, d, col.rows, col.vals, b);
    }
}

// Solves with the lower triangle of a matrix, the right side b in place.
pub fn solve_lower_triangular(a: Matrix<'_>, b: &mut [f64]) -> Solved
    ensures { let a = matrix_of a.entry in
        let old = b.old in
        (result ≡ answer (number a old) (first_or 0 (lacking_columns a))) × (b.new ≡ outputs (number a old) (forwardOf a old) old) }
{
    if let Err(refusal) = judge(a, b.len()) {
        return Solved::refused(refusal);
    }
    let valid = ValidMatrix { matrix: a };
    if let Some(column) = first_lacking(valid) {
        return Solved::lacking(column as u32);
    }
    forward(valid, b);
    Solved::DONE
}
