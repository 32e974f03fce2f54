// The right side's values, and the forward steps over the marked columns, which write the result.
ghost use Rattle.std.specs.Prelude.{◌≡◌, ◌+◌, ◌<◌, map, length, get_or, set};
ghost use Rattle.std.specs.Float.{nan};
ghost use Rattle.lists.specs.Calls.{onto};
ghost use Rattle.lists.specs.Folds.{along, over};
ghost use Rattle.cs_matrix.specs.Lent.{matrix_of};
ghost use Rattle.cs_solve.specs.Solve.{forward_column};
ghost use Rattle.cs_solve_cs.specs.SolveCs.{put_at};
ghost use Rattle.cs_solve_cs.specs.Steps.{marks, Room};

use cs_matrix::columns::column;
use cs_matrix::valid::ValidMatrix;
use cs_solve::diagonal::value_at;
use cs_solve::solve::forward_at;
use lists::numbers::wide;

// Each value at its row.
pub fn put(rows: &[u32], vals: &[f64], x: &mut [f64])
    ensures { x.new ≡ over put_at rows.now vals.now x.old }
{
    for (&row, &value) in rows.iter().zip(vals) {
        let r = wide(row);
        if r < x.len() {
            x[r] = value;
        }
    }
}

// A value of the result and its row, written at `at`. The answer is the place behind them.
fn push(row: usize, value: f64, at: usize, xi: &mut [u32], xv: &mut [f64]) -> usize
    requires { (row < 65535) × (at < length xi.old) × (at < length xv.old) }
    ensures { (result ≡ at + 1) × (xi.new ≡ set xi.old at row) × (xv.new ≡ set xv.old at value) }
{
    xi[at] = row as u32;
    xv[at] = value;
    at + 1
}

// The forward steps over the marked columns, rising. No later column changes the value of this one, so that each is written at once.
pub fn forward(a: ValidMatrix<'_>, w: &[u32], x: &mut [f64], xi: &mut [u32], xv: &mut [f64])
    requires { Room a.matrix.pattern.ncols w.now x.old xi.old xv.old }
    ensures { let a = matrix_of a.entry.matrix in
        let l = marks a.pattern.ncols w.now in
        let y = along (forward_column a) l x.old in
        (xi.new ≡ onto xi.old l) × (xv.new ≡ onto xv.old (map (λ j. get_or y j nan) l)) }
{
    let mut at = 0;
    for j in 0..a.matrix.pattern.ncols {
        if w[j] != 0 {
            let col = column(a, j);
            let d = value_at(j, col.rows, col.vals);
            forward_at(j, d, col.rows, col.vals, x);
            at = push(j, x[j], at, xi, xv);
        }
    }
}
