// The analysis: tree, pointers and rows of U, pointers and rows of L.
ghost use Rattle.std.specs.Prelude.{◌≡◌, ◌+◌, ◌≤◌, ◌||◌, length, nat_lt};
ghost use Rattle.lists.specs.Calls.{scratch, lent, leaves};
ghost use Rattle.lists.specs.Keeping.{Kept};
ghost use Rattle.lists.specs.Refusals.{numbered};
ghost use Rattle.cs_matrix.specs.Lent.{pattern_of};
ghost use Rattle.cs_matrix.specs.Matrix.{needed, ValidPattern};
ghost use Rattle.cs_tree.specs.Pattern.{analysis, analysed};
ghost use Rattle.cs_pattern.specs.Analyse.{number, written};
ghost use Rattle.cs_pattern.specs.Columns.{columns};
ghost use Rattle.cs_pattern.specs.Lent.{square_of};
ghost use Rattle.cs_pattern.specs.Promise.{Analysed};
ghost use Rattle.cs_pattern.specs.Steps.{Ready};

use crate::fill::outline;
use crate::upper::fill_columns;
use cs_matrix::matrix::Pattern;
use cs_matrix::square::prepare;
use lists::clear::{clear_scratch, fill};
use lists::refusal::Refusal;
use lists::sides::copy;
use lists::sums::cumsum;

// An output is shorter than needed, where U has t entries.
fn too_short(
    n: usize,
    t: usize,
    tree: &[u32],
    up: &[u32],
    ui: &[u32],
    lp: &[u32],
    li: &[u32],
) -> bool
    requires { n ≤ 65535 }
    ensures { result
        ≡ (nat_lt (length tree.now) n || nat_lt (length up.now) (n + 1) || nat_lt (length ui.now) t
        || nat_lt (length lp.now) (n + 1) || nat_lt (length li.now) t) }
{
    tree.len() < n || up.len() < n + 1 || ui.len() < t || lp.len() < n + 1 || li.len() < t
}

// Writes the analysis to outputs that have room for its t entries.
fn write(
    a: Pattern<'_>,
    t: usize,
    tree: &mut [u32],
    up: &mut [u32],
    ui: &mut [u32],
    lp: &mut [u32],
    li: &mut [u32],
    w1: &[u32],
    w2: &mut [u32],
    w3: &mut [u32],
)
    requires { ValidPattern (square_of a)
        × Ready (columns (square_of a)) a.ncols t w1.now w2.old w3.old (analysis tree.old up.old ui.old lp.old li.old) }
    ensures { let old = analysis tree.old up.old ui.old lp.old li.old in
        let new = analysis tree.new up.new ui.new lp.new li.new in
        (new ≡ written (analysed (columns (square_of a.entry))) old)
        × Kept 0 (a.entry.ncols + 1) w2.old w2.new × Kept 0 (a.entry.ncols + 1) w3.old w3.new }
{
    let n = a.ncols;
    fill(0, n, w2);
    let m = n + 1;
    cumsum(&mut w3[0..m], &mut lp[0..m]);
    // summed up, each place but the first has where the column of L before it ends
    fill_columns(a, t, &w1[0..n], &mut w2[0..n], up, ui, &mut w3[1..m], li);
    copy(&w1[0..n], tree);
}

// The analysis of a pattern, in tree, up, ui, lp and li.
pub fn analyse(
    a: Pattern<'_>,
    tree: &mut [u32],
    up: &mut [u32],
    ui: &mut [u32],
    lp: &mut [u32],
    li: &mut [u32],
    w1: &mut [u32],
    w2: &mut [u32],
    w3: &mut [u32],
    x: &mut [f64],
) -> Result<(), Refusal>
    ensures { let a = pattern_of a.entry in
        let old = lent (analysis tree.old up.old ui.old lp.old li.old)
        (scratch w1.old w2.old w3.old x.old) in
        let new = lent (analysis tree.new up.new ui.new lp.new li.new)
        (scratch w1.new w2.new w3.new x.new) in
        (numbered result ≡ number a old)
        × (new ≡ leaves (numbered result) (needed a) (written (analysed (columns a)) old.out) old)
        × (numbered result ≡ 0 → Analysed a new.out) }
{
    prepare(a, w1, w2, w3, x)?;
    let n = a.ncols;
    let answer = match outline(a, w1, w2, w3) {
        Some(t) if !too_short(n, t, tree, up, ui, lp, li) => {
            write(a, t, tree, up, ui, lp, li, w1, w2, w3);
            Ok(())
        }
        _ => Err(Refusal::NoRoom),
    };
    clear_scratch(n + 1, w1, w2, w3, x);
    answer
}
