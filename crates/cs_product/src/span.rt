// The rows that a column of the product can have: from the least first row to the largest last row of the columns of A that it takes.
ghost use Rattle.cs_matrix.specs.Lent.{pattern_of};
ghost use Rattle.cs_product.specs.Steps.{Within, Spanned};

use cs_matrix::matrix::Pattern;
use lists::numbers::wide;

// Rows from lo on and below hi; work is how many entries of A are taken.
#[derive(Clone, Copy)]
pub struct Span {
    pub lo: usize,
    pub hi: usize,
    pub work: usize,
}

// The span of the columns `cols` of A.
pub fn span_of(a: Pattern<'_>, cols: &[u32]) -> Span
    requires { Within (pattern_of a) cols.now }
    ensures { Spanned (pattern_of a.entry) cols.now result.lo result.hi result.work }
{
    let Pattern { nrows, p, i, .. } = a;
    let mut lo = nrows;
    let mut hi: usize = 0;
    let mut work = 0;
    for &col in cols {
        let c = wide(col);
        let start = wide(p[c]);
        let end = wide(p[c + 1]);
        if start < end {
            lo = lo.min(wide(i[start]));
            hi = hi.max(wide(i[end - 1]) + 1);
            work += end - start;
        }
    }
    Span {
        lo: lo.min(hi),
        hi,
        work,
    }
}
