// The sum.
ghost use Rattle.std.specs.Prelude.{◌≡◌};
ghost use Rattle.lists.specs.Calls.{outputs};
ghost use Rattle.cs_matrix.specs.Matrix.{matrix, stored, written, Valid};
ghost use Rattle.cs_sum.specs.Sum.{sum as sum_of, number};

use cs_matrix::matrix::{Matrix, Pattern};
use lists::refusal::number;

// The sum of two matrices, in op, oi and ov.
#[unsafe(no_mangle)]
pub extern "C" fn siwkatenor_sum(
    nrows: usize,
    ncols: usize,
    ap: &[u32],
    ai: &[u32],
    av: &[f64],
    bnrows: usize,
    bncols: usize,
    bp: &[u32],
    bi: &[u32],
    bv: &[f64],
    op: &mut [u32],
    oi: &mut [u32],
    ov: &mut [f64],
) -> u32
    ensures { let a = matrix nrows ncols ap.now ai.now av.now in
        let b = matrix bnrows bncols bp.now bi.now bv.now in
        let old = stored op.old oi.old ov.old in
        let new = stored op.new oi.new ov.new in
        (result ≡ number a b old) × (new ≡ outputs result (written (sum_of a b) old) old) × (result ≡ 0 → Valid (sum_of a b)) }
{
    let pattern = Pattern {
        nrows,
        ncols,
        p: ap,
        i: ai,
    };
    let a = Matrix { pattern, v: av };
    let pattern = Pattern {
        nrows: bnrows,
        ncols: bncols,
        p: bp,
        i: bi,
    };
    let b = Matrix { pattern, v: bv };
    number(cs_sum::sum::sum(a, b, op, oi, ov))
}
