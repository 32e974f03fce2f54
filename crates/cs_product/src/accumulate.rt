// One column of the product, in x. A row that is met first is marked with the column's stamp and listed in `met`, so that only those
// rows are looked at afterwards.
ghost use Rattle.std.specs.Prelude.{◌≡◌, length};
ghost use Rattle.lists.specs.Entries.{plus_at};
ghost use Rattle.lists.specs.Folds.{over};
ghost use Rattle.cs_matrix.specs.Lent.{matrix_of};
ghost use Rattle.cs_product.specs.Product.{add_column};
ghost use Rattle.cs_product.specs.Steps.{Met, Adding, Starting};

use cs_matrix::columns::column;
use cs_matrix::valid::ValidMatrix;
use lists::numbers::wide;

// A column of A times β, added to x. The answer is how many rows are met now.
fn add_column(
    stamp: u32,
    beta: f64,
    rows: &[u32],
    vals: &[f64],
    mark: &mut [u32],
    met: &mut [u32],
    x: &mut [f64],
    count: usize,
) -> usize
    requires { Adding (length x.old) stamp rows.now vals.now mark.old met.old x.old count }
    ensures { (x.new ≡ over (plus_at beta) rows.now vals.now x.old) × Met (length x.old) stamp mark.new met.new x.new result }
{
    let mut many = count;
    for (&row, &val) in rows.iter().zip(vals) {
        let r = wide(row);
        x[r] += val * beta;
        if mark[r] != stamp {
            mark[r] = stamp;
            met[many] = row;
            many += 1;
        }
    }
    many
}

// A times a column of B, in x, which is all +0.0. The answer is how many rows were met.
pub fn accumulate(
    a: ValidMatrix<'_>,
    stamp: u32,
    rows: &[u32],
    vals: &[f64],
    mark: &mut [u32],
    met: &mut [u32],
    x: &mut [f64],
) -> usize
    requires { Starting (matrix_of a.matrix) stamp rows.now vals.now mark.old met.old x.old }
    ensures { (x.new ≡ over (add_column (matrix_of a.entry.matrix)) rows.now vals.now x.old) ×
        Met a.entry.matrix.pattern.nrows stamp mark.new met.new x.new result }
{
    let mut many = 0;
    for (&col, &val) in rows.iter().zip(vals) {
        let c = wide(col);
        let part = column(a, c);
        many = add_column(stamp, val, part.rows, part.vals, mark, met, x, many);
    }
    many
}
