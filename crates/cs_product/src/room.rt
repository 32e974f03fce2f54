// Number 7 of the product. What remains is counted only where the outputs have no room for as much as can remain.
ghost use Rattle.std.specs.Prelude.{[], ◌∷◌, ◌≡◌, ◌+◌, ◌≤◌};
ghost use Rattle.lists.specs.Calls.{lowest};
ghost use Rattle.lists.specs.Refusals.{numbered};
ghost use Rattle.cs_matrix.specs.Lent.{matrix_of};
ghost use Rattle.cs_columns.specs.Columns.{short_for};
ghost use Rattle.cs_product.specs.Steps.{size, Fresh, Factors, Begun};

use crate::columns::count_column;
use crate::span::span_of;
use cs_columns::judge::no_room;
use cs_matrix::columns::column;
use cs_matrix::valid::ValidMatrix;
use lists::refusal::Refusal;

// No fewer than the entries that remain: of each column the length of its span or its work, whichever is smaller.
fn bound(a: ValidMatrix<'_>, b: ValidMatrix<'_>) -> usize
    requires { Factors (matrix_of a.matrix) (matrix_of b.matrix) }
    ensures { size (matrix_of a.entry.matrix) (matrix_of b.entry.matrix) ≤ result }
{
    let mut most = 0;
    for j in 0..b.matrix.pattern.ncols {
        let col = column(b, j);
        let span = span_of(a.matrix.pattern, col.rows);
        most += (span.hi - span.lo).min(span.work);
    }
    most
}

// The number of entries that remain.
fn count(
    a: ValidMatrix<'_>,
    b: ValidMatrix<'_>,
    mark: &mut [u32],
    met: &mut [u32],
    x: &mut [f64],
) -> usize
    requires { Begun (matrix_of a.matrix) (matrix_of b.matrix) 1 mark.old met.old x.old }
    ensures { let a = matrix_of a.entry.matrix in
        let b = matrix_of b.entry.matrix in
        (result ≡ size a b) × Fresh a.pattern.nrows (b.pattern.ncols + 1) mark.new met.new x.new }
{
    let mut entries = 0;
    for j in 0..b.matrix.pattern.ncols {
        let col = column(b, j);
        entries += count_column(a, (j + 1) as u32, col.rows, col.vals, mark, met, x);
    }
    entries
}

// Number 7, by the lengths of the outputs.
pub fn check_room(
    a: ValidMatrix<'_>,
    b: ValidMatrix<'_>,
    plen: usize,
    ilen: usize,
    vlen: usize,
    mark: &mut [u32],
    met: &mut [u32],
    x: &mut [f64],
) -> Result<(), Refusal>
    requires { Begun (matrix_of a.matrix) (matrix_of b.matrix) 1 mark.old met.old x.old }
    ensures { let a = matrix_of a.entry.matrix in
        let b = matrix_of b.entry.matrix in
        (numbered result ≡ lowest ((7, short_for b.pattern.ncols (size a b) plen ilen vlen) ∷ []))
        × Fresh a.pattern.nrows (b.pattern.ncols + 1) mark.new met.new x.new }
{
    let ncols = b.matrix.pattern.ncols;
    if !no_room(ncols, bound(a, b), plen, ilen, vlen) {
        return Ok(());
    }
    if no_room(ncols, count(a, b, mark, met, x), plen, ilen, vlen) {
        return Err(Refusal::NoRoom);
    }
    Ok(())
}
