// The columns of a valid matrix.
ghost use Rattle.std.specs.Prelude.{◌≡◌};
ghost use Rattle.cs_matrix.specs.Lent.{matrix_of};
ghost use Rattle.cs_matrix.specs.Columns.{IsColumn};

use crate::matrix::Matrix;
use crate::valid::{Column, ValidMatrix};
use lists::numbers::wide;

// The rows and values of column j, and nothing past the last.
pub fn column<'a>(a: ValidMatrix<'a>, j: usize) -> Column<'a>
    ensures { IsColumn (matrix_of a.entry.matrix) j result.rows.now result.vals.now }
{
    let Matrix { pattern, v } = a.matrix;
    if j >= pattern.ncols {
        return Column {
            rows: &[],
            vals: &[],
        };
    }
    let s = wide(pattern.p[j]);
    let e = wide(pattern.p[j + 1]);
    Column {
        rows: &pattern.i[s..e],
        vals: &v[s..e],
    }
}
