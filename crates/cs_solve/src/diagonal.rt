// The search for the diagonal of a column.
ghost use Rattle.std.specs.Prelude.{◌≡◌};
ghost use Rattle.cs_matrix.specs.Lent.{matrix_of};
ghost use Rattle.cs_matrix.specs.Matrix.{value_at};
ghost use Rattle.cs_solve.specs.Diagonal.{lacking};

use cs_matrix::columns::column;
use cs_matrix::valid::ValidMatrix;
use lists::numbers::wide;

// The value at row j of a column, or +0.0.
pub fn value_at(j: usize, rows: &[u32], vals: &[f64]) -> f64
    ensures { result ≡ value_at j rows.now vals.now }
{
    for (&row, &value) in rows.iter().zip(vals) {
        if wide(row) == j {
            return value;
        }
    }
    0.0
}

// The diagonal of column j is absent or zero.
pub(crate) fn lacks(a: ValidMatrix<'_>, j: usize) -> bool
    ensures { result ≡ lacking (matrix_of a.entry.matrix) j }
{
    let col = column(a, j);
    value_at(j, col.rows, col.vals) == 0.0
}
