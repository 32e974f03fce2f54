// One column of the product, in x, without marks.
ghost use Rattle.std.specs.Prelude.{true, ◌≡◌, length};
ghost use Rattle.lists.specs.Entries.{Entries, plus_at};
ghost use Rattle.lists.specs.Folds.{over};
ghost use Rattle.lists.specs.Order.{rises};
ghost use Rattle.cs_matrix.specs.Lent.{matrix_of};
ghost use Rattle.cs_product.specs.Product.{add_column};
ghost use Rattle.cs_product.specs.Steps.{Plain};

use cs_matrix::columns::column;
use cs_matrix::valid::ValidMatrix;
use lists::numbers::wide;
use lists::sides::add_times;
use lists::tight::tight;

// A column of A times β, added to x row by row. The left factoring has the same step and the next: each asks something of its slices, so
// that it cannot be public in a crate below both.
fn add_rows(beta: f64, rows: &[u32], vals: &[f64], x: &mut [f64])
    requires { Entries (length x.old) rows.now vals.now }
    ensures { x.new ≡ over (plus_at beta) rows.now vals.now x.old }
{
    for (&row, &val) in rows.iter().zip(vals) {
        let r = wide(row);
        x[r] += val * beta;
    }
}

// The same as add_rows: a run is one part of x. Few rows gain nothing by it.
fn add_plain(beta: f64, rows: &[u32], vals: &[f64], x: &mut [f64])
    requires { Entries (length x.old) rows.now vals.now × (rises rows.now ≡ true) }
    ensures { x.new ≡ over (plus_at beta) rows.now vals.now x.old }
{
    if rows.len() > 7 && tight(rows) {
        let first = wide(rows[0]);
        add_times(vals, beta, &mut x[first..first + vals.len()]);
        return;
    }
    add_rows(beta, rows, vals, x);
}

// A times a column of B, added to x.
pub fn accumulate_plain(a: ValidMatrix<'_>, rows: &[u32], vals: &[f64], x: &mut [f64])
    requires { Plain (matrix_of a.matrix) rows.now vals.now x.old }
    ensures { x.new ≡ over (add_column (matrix_of a.entry.matrix)) rows.now vals.now x.old }
{
    for (&col, &val) in rows.iter().zip(vals) {
        let c = wide(col);
        let part = column(a, c);
        add_plain(val, part.rows, part.vals, x);
    }
}
