// The comparison of a lent analysis with a fresh one.
ghost use Rattle.std.specs.Prelude.{◌≡◌};
ghost use Rattle.lists.specs.Calls.{scratch, worked};
ghost use Rattle.cs_matrix.specs.Matrix.{pattern, needed};
ghost use Rattle.cs_tree.specs.Pattern.{analysis};
ghost use Rattle.cs_pattern.specs.Compare.{number};

use cs_matrix::matrix::Pattern;
use cs_pattern::compare::Analysis;
use lists::refusal::number;

// The number that a lent analysis of a pattern gets, where L's values have the length room.
#[unsafe(no_mangle)]
pub extern "C" fn siwkatenor_compare(
    nrows: usize,
    ncols: usize,
    p: &[u32],
    i: &[u32],
    room: usize,
    tree: &[u32],
    up: &[u32],
    ui: &[u32],
    lp: &[u32],
    li: &[u32],
    w1: &mut [u32],
    w2: &mut [u32],
    w3: &mut [u32],
    x: &mut [f64],
) -> u32
    ensures { let a = pattern nrows ncols p.now i.now in
        let given = analysis tree.now up.now ui.now lp.now li.now in
        let old = scratch w1.old w2.old w3.old x.old in
        let new = scratch w1.new w2.new w3.new x.new in
        (result ≡ number a room given old) × (new ≡ worked result (needed a) old) }
{
    let a = Pattern { nrows, ncols, p, i };
    let given = Analysis {
        tree,
        up,
        ui,
        lp,
        li,
    };
    number(cs_pattern::compare::compare(a, room, given, w1, w2, w3, x))
}
