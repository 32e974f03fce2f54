// A matrix that has been checked, and its columns.
ghost use Rattle.std.specs.Prelude.{◌≡◌, length, true};
ghost use Rattle.lists.specs.Order.{rises};
ghost use Rattle.cs_matrix.specs.Lent.{matrix_of};
ghost use Rattle.cs_matrix.specs.Matrix.{Valid};

use crate::matrix::Matrix;

// A matrix that numbers 1 to 5 do not refuse.
#[derive(Clone, Copy)]
pub struct ValidMatrix<'a> {
    pub matrix: Matrix<'a>,
    ghost valid: { Valid (matrix_of matrix) },
}

// Rising rows, and a value for each.
#[derive(Clone, Copy)]
pub struct Column<'a> {
    pub rows: &'a [u32],
    pub vals: &'a [f64],
    ghost rise: { rises rows.now ≡ true },
    ghost even: { length vals.now ≡ length rows.now },
}
