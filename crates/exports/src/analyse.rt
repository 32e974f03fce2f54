// The analysis of a pattern.
ghost use Rattle.std.specs.Prelude.{◌≡◌};
ghost use Rattle.lists.specs.Calls.{scratch, lent, leaves};
ghost use Rattle.cs_matrix.specs.Matrix.{pattern, needed};
ghost use Rattle.cs_tree.specs.Pattern.{analysis, analysed};
ghost use Rattle.cs_pattern.specs.Analyse.{number, written};
ghost use Rattle.cs_pattern.specs.Columns.{columns};
ghost use Rattle.cs_pattern.specs.Promise.{Analysed};

use cs_matrix::matrix::Pattern;
use lists::refusal::number;

// The analysis of a pattern, in tree, up, ui, lp and li.
#[unsafe(no_mangle)]
pub extern "C" fn siwkatenor_analyse(
    nrows: usize,
    ncols: usize,
    p: &[u32],
    i: &[u32],
    tree: &mut [u32],
    up: &mut [u32],
    ui: &mut [u32],
    lp: &mut [u32],
    li: &mut [u32],
    w1: &mut [u32],
    w2: &mut [u32],
    w3: &mut [u32],
    x: &mut [f64],
) -> u32
    ensures { let a = pattern nrows ncols p.now i.now in
        let old = lent (analysis tree.old up.old ui.old lp.old li.old)
        (scratch w1.old w2.old w3.old x.old) in
        let new = lent (analysis tree.new up.new ui.new lp.new li.new)
        (scratch w1.new w2.new w3.new x.new) in
        (result ≡ number a old) × (new ≡ leaves result (needed a) (written (analysed (columns a)) old.out) old) × (result ≡ 0 → Analysed a new.out) }
{
    let a = Pattern { nrows, ncols, p, i };
    number(cs_pattern::analyse::analyse(a, tree, up, ui, lp, li, w1, w2, w3, x))
}
