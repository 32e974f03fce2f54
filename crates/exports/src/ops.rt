// Scaling and axpy.
ghost use Rattle.std.specs.Prelude.{◌≡◌};
ghost use Rattle.lists.specs.Calls.{lowest, outputs};
ghost use Rattle.cs_matrix.specs.Matrix.{matrix, vector, judged};
ghost use Rattle.cs_ops.specs.Axpy.{axpy as axpyOf, axpy_number};
ghost use Rattle.cs_ops.specs.Scale.{scaled};

use cs_matrix::matrix::{Pattern, Vector};
use lists::refusal::number;

// Each value of a matrix times s.
#[unsafe(no_mangle)]
pub extern "C" fn siwkatenor_scale(
    nrows: usize,
    ncols: usize,
    p: &[u32],
    i: &[u32],
    v: &mut [f64],
    s: f64,
) -> u32
    ensures { let a = matrix nrows ncols p.now i.now v.old in
        (result ≡ lowest (judged a)) × (v.new ≡ outputs result (scaled s v.old) v.old) }
{
    number(cs_ops::scale::scale(Pattern { nrows, ncols, p, i }, v, s))
}

// y becomes α times x and β times y; x has the dimension n and the rows i with the values v.
#[unsafe(no_mangle)]
pub extern "C" fn siwkatenor_axpy_cs(
    n: usize,
    alpha: f64,
    i: &[u32],
    v: &[f64],
    beta: f64,
    y: &mut [f64],
) -> u32
    ensures { let x = vector n i.now v.now in
        (result ≡ axpy_number x y.old) × (y.new ≡ outputs result (axpyOf alpha x beta y.old) y.old) }
{
    number(cs_ops::axpy::axpy_cs(alpha, Vector { n, i, v }, beta, y))
}
