// The sum: both operands are judged, the different places counted where the outputs may lack room, then each pair of columns merged.
ghost use Rattle.std.specs.Prelude.{[], ◌∷◌, ◌≡◌, length};
ghost use Rattle.lists.specs.Calls.{lowest, outputs};
ghost use Rattle.lists.specs.Choices.{chosen};
ghost use Rattle.lists.specs.Refusals.{numbered};
ghost use Rattle.cs_matrix.specs.Lent.{matrix_of};
ghost use Rattle.cs_matrix.specs.Matrix.{stored, written, Valid};
ghost use Rattle.cs_columns.specs.Columns.{joined, short_for};
ghost use Rattle.cs_sum.specs.Steps.{Alike, Ready};
ghost use Rattle.cs_sum.specs.Sum.{row_of, sum as sum_of, differ as differOf, number};

use crate::merge::{count_rows, merge};
use cs_columns::judge::{check_two, no_room};
use cs_matrix::columns::column;
use cs_matrix::matrix::{Matrix, Pattern};
use cs_matrix::valid::ValidMatrix;
use lists::refusal::Refusal;

// The dimensions of the two differ.
#[tactic(auto, unfolding(crate::specs::Sum::differ))]
fn differ(a: Pattern<'_>, b: Pattern<'_>) -> bool
    ensures { result ≡ differOf a.entry.nrows a.entry.ncols b.entry.nrows b.entry.ncols }
{
    a.nrows != b.nrows || a.ncols != b.ncols
}

// The number of different places.
fn count(a: ValidMatrix<'_>, b: ValidMatrix<'_>) -> usize
    requires { Alike (matrix_of a.matrix) (matrix_of b.matrix) }
    ensures { let a = matrix_of a.entry.matrix in
        let b = matrix_of b.entry.matrix in
        result ≡ length (joined (λ j. chosen a.pattern.nrows (row_of a b j)) a.pattern.ncols) }
{
    let ncols = a.matrix.pattern.ncols;
    let mut places = 0;
    for j in 0..ncols {
        let one = column(a, j);
        let two = column(b, j);
        places += count_rows(one.rows, two.rows);
    }
    places
}

// Number 7, by the lengths of the outputs. Room for the entries of both is room for the different places, which are then not counted.
fn check_room(
    a: ValidMatrix<'_>,
    b: ValidMatrix<'_>,
    plen: usize,
    ilen: usize,
    vlen: usize,
) -> Result<(), Refusal>
    requires { Alike (matrix_of a.matrix) (matrix_of b.matrix) }
    ensures { let a = matrix_of a.entry.matrix in
        let b = matrix_of b.entry.matrix in
        let places = length (joined (λ j. chosen a.pattern.nrows (row_of a b j)) a.pattern.ncols) in
        numbered result ≡ lowest ((7, short_for a.pattern.ncols places plen ilen vlen) ∷ []) }
{
    let ncols = a.matrix.pattern.ncols;
    let both = a.matrix.pattern.i.len() + b.matrix.pattern.i.len();
    if !no_room(ncols, both, plen, ilen, vlen) {
        return Ok(());
    }
    if no_room(ncols, count(a, b), plen, ilen, vlen) {
        return Err(Refusal::NoRoom);
    }
    Ok(())
}

// The sum, into outputs that have room.
fn fill(a: ValidMatrix<'_>, b: ValidMatrix<'_>, op: &mut [u32], oi: &mut [u32], ov: &mut [f64])
    requires { Ready (matrix_of a.matrix) (matrix_of b.matrix) (stored op.old oi.old ov.old) }
    ensures { stored op.new oi.new ov.new
        ≡ written (sum_of (matrix_of a.entry.matrix) (matrix_of b.entry.matrix)) (stored op.old oi.old ov.old) }
{
    let ncols = a.matrix.pattern.ncols;
    let mut at = 0;
    for j in 0..ncols {
        op[j] = at as u32;
        let one = column(a, j);
        let two = column(b, j);
        at = merge(at, one.rows, one.vals, two.rows, two.vals, oi, ov);
    }
    op[ncols] = at as u32;
}

// The sum of two matrices, in op, oi and ov.
pub fn sum(
    a: Matrix<'_>,
    b: Matrix<'_>,
    op: &mut [u32],
    oi: &mut [u32],
    ov: &mut [f64],
) -> Result<(), Refusal>
    ensures { let a = matrix_of a.entry in
        let b = matrix_of b.entry in
        let old = stored op.old oi.old ov.old in
        let new = stored op.new oi.new ov.new in
        (numbered result ≡ number a b old) × (new ≡ outputs (numbered result) (written (sum_of a b) old) old) ×
        (numbered result ≡ 0 → Valid (sum_of a b)) }
{
    check_two(a, b, differ(a.pattern, b.pattern))?;
    let a = ValidMatrix { matrix: a };
    let b = ValidMatrix { matrix: b };
    check_room(a, b, op.len(), oi.len(), ov.len())?;
    fill(a, b, op, oi, ov);
    Ok(())
}
