// The checks of a pattern, a matrix and a vector, and the transpose.
ghost use Rattle.std.specs.Prelude.{◌≡◌};
ghost use Rattle.lists.specs.Calls.{lowest, leaves, lent, scratch};
ghost use Rattle.cs_matrix.specs.Matrix.{pattern, matrix, vector, judged_pattern, judged, judged_vector, stored, needed, written};
ghost use Rattle.cs_transpose.specs.Transpose.{number, transposed, Turned};

use cs_matrix::matrix::{Matrix, Pattern, Vector};
use lists::refusal::number;

// The lowest refusal number of a pattern, 0 for a valid one.
#[unsafe(no_mangle)]
pub extern "C" fn siwkatenor_check_pattern(nrows: usize, ncols: usize, p: &[u32], i: &[u32]) -> u32
    ensures { result ≡ lowest (judged_pattern (pattern nrows ncols p.now i.now)) }
{
    number(cs_matrix::check::check_pattern(Pattern { nrows, ncols, p, i }))
}

// The lowest refusal number of a matrix, 0 for a valid one.
#[unsafe(no_mangle)]
pub extern "C" fn siwkatenor_check(
    nrows: usize,
    ncols: usize,
    p: &[u32],
    i: &[u32],
    v: &[f64],
) -> u32
    ensures { result ≡ lowest (judged (matrix nrows ncols p.now i.now v.now)) }
{
    let pattern = Pattern { nrows, ncols, p, i };
    number(cs_matrix::check::check(Matrix { pattern, v }))
}

// The lowest refusal number of a vector below the dimension n, 0 for a valid one.
#[unsafe(no_mangle)]
pub extern "C" fn siwkatenor_check_vector(n: usize, i: &[u32], v: &[f64]) -> u32
    ensures { result ≡ lowest (judged_vector (vector n i.now v.now)) }
{
    number(cs_matrix::check::check_vector(Vector { n, i, v }))
}

// The transpose of a matrix, in tp, ti and tv.
#[unsafe(no_mangle)]
pub extern "C" fn siwkatenor_transpose(
    nrows: usize,
    ncols: usize,
    p: &[u32],
    i: &[u32],
    v: &[f64],
    tp: &mut [u32],
    ti: &mut [u32],
    tv: &mut [f64],
    w1: &mut [u32],
    w2: &mut [u32],
    w3: &mut [u32],
    x: &mut [f64],
) -> u32
    ensures { let a = matrix nrows ncols p.now i.now v.now in
        let old = lent (stored tp.old ti.old tv.old) (scratch w1.old w2.old w3.old x.old) in
        let new = lent (stored tp.new ti.new tv.new) (scratch w1.new w2.new w3.new x.new) in
        (result ≡ number a old) × (new ≡ leaves result (needed a.pattern) (written (transposed a) old.out) old) × (result ≡ 0 → Turned a) }
{
    let pattern = Pattern { nrows, ncols, p, i };
    number(cs_transpose::transpose::transpose(Matrix { pattern, v }, tp, ti, tv, w1, w2, w3, x))
}
