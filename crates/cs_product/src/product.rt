// The product: both operands are judged, the room for what remains of them too, then that is written column by column.
ghost use Rattle.std.specs.Prelude.{[], ◌∷◌, ◌≡◌};
ghost use Rattle.lists.specs.Calls.{lowest, outputs, leaves, lent, scratch};
ghost use Rattle.lists.specs.Refusals.{numbered};
ghost use Rattle.cs_matrix.specs.Lent.{matrix_of};
ghost use Rattle.cs_matrix.specs.Matrix.{stored, short, written, Valid};
ghost use Rattle.cs_product.specs.Product.{product as productOf, needed_two, number};
ghost use Rattle.cs_product.specs.Steps.{Ready, Clean};

use crate::columns::write_column;
use crate::room::check_room;
use cs_columns::judge::check_two;
use cs_matrix::columns::column;
use cs_matrix::matrix::{Matrix, Pattern};
use cs_matrix::valid::ValidMatrix;
use lists::clear::{self, clear_scratch, too_narrow};
use lists::refusal::Refusal;

// The product, into outputs that have room.
fn fill(
    a: ValidMatrix<'_>,
    b: ValidMatrix<'_>,
    mark: &mut [u32],
    met: &mut [u32],
    spare: &mut [u32],
    x: &mut [f64],
    op: &mut [u32],
    oi: &mut [u32],
    ov: &mut [f64],
)
    requires { Ready (matrix_of a.matrix) (matrix_of b.matrix) mark.old met.old spare.old x.old (stored op.old oi.old ov.old) }
    ensures { stored op.new oi.new ov.new
        ≡ written (productOf (matrix_of a.entry.matrix) (matrix_of b.entry.matrix)) (stored op.old oi.old ov.old) }
{
    let ncols = b.matrix.pattern.ncols;
    let mut at = 0;
    for j in 0..ncols {
        op[j] = at as u32;
        let col = column(b, j);
        at = write_column(
            a,
            (j + 1) as u32,
            col.rows,
            col.vals,
            at,
            mark,
            met,
            spare,
            x,
            oi,
            ov,
        );
    }
    op[ncols] = at as u32;
}

// Number 7 or the product, on scratch that is cleared.
fn serve(
    a: ValidMatrix<'_>,
    b: ValidMatrix<'_>,
    op: &mut [u32],
    oi: &mut [u32],
    ov: &mut [f64],
    mark: &mut [u32],
    met: &mut [u32],
    spare: &mut [u32],
    x: &mut [f64],
) -> Result<(), Refusal>
    requires { Clean (matrix_of a.matrix) (matrix_of b.matrix) mark.old met.old spare.old x.old }
    ensures { let a = matrix_of a.entry.matrix in
        let b = matrix_of b.entry.matrix in
        let old = stored op.old oi.old ov.old in
        let new = stored op.new oi.new ov.new in
        (numbered result ≡ lowest ((7, short (productOf a b) old) ∷ [])) ×
        (new ≡ outputs (numbered result) (written (productOf a b) old) old) × (numbered result ≡ 0 → Valid (productOf a b)) }
{
    check_room(a, b, op.len(), oi.len(), ov.len(), mark, met, x)?;
    clear::fill(0, a.matrix.pattern.nrows, mark);
    fill(a, b, mark, met, spare, x, op, oi, ov);
    Ok(())
}

// The product of two matrices, in op, oi and ov.
pub fn product(
    a: Matrix<'_>,
    b: Matrix<'_>,
    op: &mut [u32],
    oi: &mut [u32],
    ov: &mut [f64],
    w1: &mut [u32],
    w2: &mut [u32],
    w3: &mut [u32],
    x: &mut [f64],
) -> Result<(), Refusal>
    ensures { let a = matrix_of a.entry in
        let b = matrix_of b.entry in
        let old = lent (stored op.old oi.old ov.old) (scratch w1.old w2.old w3.old x.old) in
        let new = lent (stored op.new oi.new ov.new) (scratch w1.new w2.new w3.new x.new) in
        (numbered result ≡ number a b old) ×
        (new ≡ leaves (numbered result) (needed_two a.pattern b.pattern) (written (productOf a b) old.out) old) ×
        (numbered result ≡ 0 → Valid (productOf a b)) }
{
    let Pattern { nrows, ncols, .. } = a.pattern;
    check_two(a, b, ncols != b.pattern.nrows)?;
    let need = nrows.max(ncols).max(b.pattern.nrows).max(b.pattern.ncols) + 1;
    if too_narrow(need, w1, w2, w3, x) {
        return Err(Refusal::NoScratch);
    }
    clear_scratch(need, w1, w2, w3, x);
    let answer = serve(
        ValidMatrix { matrix: a },
        ValidMatrix { matrix: b },
        op,
        oi,
        ov,
        &mut w1[0..nrows],
        &mut w2[0..nrows],
        &mut w3[0..nrows],
        &mut x[0..nrows],
    );
    clear_scratch(need, w1, w2, w3, x);
    answer
}
