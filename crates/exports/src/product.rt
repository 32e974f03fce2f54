// The product.
ghost use Rattle.std.specs.Prelude.{◌≡◌};
ghost use Rattle.lists.specs.Calls.{leaves, lent, scratch};
ghost use Rattle.cs_matrix.specs.Matrix.{matrix, stored, written, Valid};
ghost use Rattle.cs_product.specs.Product.{product as productOf, needed_two, number};

use cs_matrix::matrix::{Matrix, Pattern};
use lists::refusal::number;

// The product of two matrices, in op, oi and ov.
#[unsafe(no_mangle)]
pub extern "C" fn siwkatenor_product(
    nrows: usize,
    ncols: usize,
    ap: &[u32],
    ai: &[u32],
    av: &[f64],
    bnrows: usize,
    bncols: usize,
    bp: &[u32],
    bi: &[u32],
    bv: &[f64],
    op: &mut [u32],
    oi: &mut [u32],
    ov: &mut [f64],
    w1: &mut [u32],
    w2: &mut [u32],
    w3: &mut [u32],
    x: &mut [f64],
) -> u32
    ensures { let a = matrix nrows ncols ap.now ai.now av.now in
        let b = matrix bnrows bncols bp.now bi.now bv.now in
        let old = lent (stored op.old oi.old ov.old) (scratch w1.old w2.old w3.old x.old) in
        let new = lent (stored op.new oi.new ov.new) (scratch w1.new w2.new w3.new x.new) in
        (result ≡ number a b old)
        × (new ≡ leaves result (needed_two a.pattern b.pattern) (written (productOf a b) old.out) old)
        × (result ≡ 0 → Valid (productOf a b)) }
{
    let pattern = Pattern {
        nrows,
        ncols,
        p: ap,
        i: ai,
    };
    let a = Matrix { pattern, v: av };
    let pattern = Pattern {
        nrows: bnrows,
        ncols: bncols,
        p: bp,
        i: bi,
    };
    let b = Matrix { pattern, v: bv };
    number(cs_product::product::product(a, b, op, oi, ov, w1, w2, w3, x))
}
