// The stored rows of a column.
ghost use Rattle.std.specs.Prelude.{◌≡◌, ◌<◌};
ghost use Rattle.cs_matrix.specs.Matrix.{column, ValidPattern};
ghost use Rattle.cs_pattern.specs.Lent.{square_of};

use cs_matrix::matrix::Pattern;
use lists::numbers::wide;

// The rows of column k.
pub(crate) fn rows<'a>(a: Pattern<'a>, k: usize) -> &'a [u32]
    requires { ValidPattern (square_of a) × (k < a.ncols) }
    ensures { let a = square_of a.entry in result.now ≡ column a.p k a.i }
{
    let Pattern { p, i, .. } = a;
    let s = wide(p[k]);
    let e = wide(p[k + 1]);
    &i[s..e]
}
