// The left factoring.
ghost use Rattle.std.specs.Prelude.{◌≡◌};
ghost use Rattle.lists.specs.Calls.{lent, scratch, leaves};
ghost use Rattle.cs_matrix.specs.Matrix.{pattern, matrix, needed};
ghost use Rattle.cs_tree.specs.Pattern.{analysis, upper, entries};
ghost use Rattle.cs_pattern.specs.Columns.{columns};
ghost use Rattle.cs_cholesky.specs.Factor.{answer, written};
ghost use Rattle.cs_left.specs.Left.{left, number};

use cs_cholesky::Factored;
use cs_matrix::matrix::{Matrix, Pattern};
use cs_pattern::compare::Analysis;

// Factors a matrix by its lent analysis: L's values are written to lx.
#[unsafe(no_mangle)]
pub extern "C" fn siwkatenor_decompose_left_looking(
    nrows: usize,
    ncols: usize,
    p: &[u32],
    i: &[u32],
    v: &[f64],
    tree: &[u32],
    up: &[u32],
    ui: &[u32],
    lp: &[u32],
    li: &[u32],
    lx: &mut [f64],
    w1: &mut [u32],
    w2: &mut [u32],
    w3: &mut [u32],
    x: &mut [f64],
) -> Factored
    ensures { let a = matrix nrows ncols p.now i.now v.now in
        let given = analysis tree.now up.now ui.now lp.now li.now in
        let t = entries (upper (columns (pattern nrows ncols p.now i.now))) in
        let old = lent lx.old (scratch w1.old w2.old w3.old x.old) in
        let new = lent lx.new (scratch w1.new w2.new w3.new x.new) in
        (result ≡ answer (number a given old) (left a))
        × (new ≡ leaves result.number (needed (pattern nrows ncols p.now i.now)) (written t (left a) lx.old) old) }
{
    let pattern = Pattern { nrows, ncols, p, i };
    let given = Analysis {
        tree,
        up,
        ui,
        lp,
        li,
    };
    cs_left::left::decompose_left_looking(Matrix { pattern, v }, given, lx, w1, w2, w3, x)
}
