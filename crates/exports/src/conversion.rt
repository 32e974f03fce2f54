// Assembly from triplets.
ghost use Rattle.std.specs.Prelude.{◌≡◌};
ghost use Rattle.lists.specs.Calls.{scratch, lent, leaves};
ghost use Rattle.cs_matrix.specs.Matrix.{stored, written};
ghost use Rattle.cs_conversion.specs.Assembly.{triplets, needed_triplets, assembled, number, Assembled};

use cs_conversion::assembly::Triplets;
use lists::refusal::number;

// The matrix of the triplets, in p, i and v.
#[unsafe(no_mangle)]
pub extern "C" fn siwkatenor_from_triplet(
    nrows: usize,
    ncols: usize,
    irows: &[u32],
    icols: &[u32],
    vals: &[f64],
    p: &mut [u32],
    i: &mut [u32],
    v: &mut [f64],
    w1: &mut [u32],
    w2: &mut [u32],
    w3: &mut [u32],
    x: &mut [f64],
) -> u32
    ensures { let t = triplets nrows ncols irows.now icols.now vals.now in
        let old = lent (stored p.old i.old v.old) (scratch w1.old w2.old w3.old x.old) in
        let new = lent (stored p.new i.new v.new) (scratch w1.new w2.new w3.new x.new) in
        (result ≡ number t old) × (new ≡ leaves result (needed_triplets t) (written (assembled t) old.out) old) × (result ≡ 0 → Assembled t) }
{
    let t = Triplets {
        nrows,
        ncols,
        irows,
        icols,
        vals,
    };
    number(cs_conversion::assembly::from_triplet(t, p, i, v, w1, w2, w3, x))
}
