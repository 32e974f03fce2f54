// The elimination tree, by climbs along the noted ancestors.
ghost use Rattle.std.specs.Prelude.{◌≡◌, true, length};
ghost use Rattle.lists.specs.Order.{rises};
ghost use Rattle.cs_matrix.specs.Matrix.{ValidPattern};
ghost use Rattle.cs_tree.specs.Steps.{Climbs};
ghost use Rattle.cs_tree.specs.Tree.{forest, climbs, tree};
ghost use Rattle.cs_pattern.specs.Columns.{columns};
ghost use Rattle.cs_pattern.specs.Lent.{square_of};

use crate::rows::rows;
use cs_matrix::matrix::Pattern;
use lists::clear::fill;
use lists::numbers::wide;

// No parent, in the tree that callers are given; in `anc`, no ancestor noted.
const ROOT: u32 = u32::MAX;

// Column k's part in the tree. The rows rise, so that the first that is not below k ends it.
fn tree_column(k: u32, rows: &[u32], par: &mut [u32], anc: &mut [u32])
    requires { Climbs k par.old anc.old × (rises rows.now ≡ true) }
    ensures { forest par.new anc.new ≡ climbs k rows.now (forest par.old anc.old) }
{
    let top = wide(k);
    for &row in rows {
        let mut i = wide(row);
        if i >= top {
            return;
        }
        // climbs by the noted ancestors; document 01 names the form, a labelled loop left by break
        'climb: while i < top {
            let a = anc[i];
            anc[i] = k;
            if a == ROOT {
                par[i] = k;
                break 'climb;
            }
            i = wide(a);
        }
    }
}

// The tree of a square pattern, in par.
pub fn elimination_tree(a: Pattern<'_>, par: &mut [u32], anc: &mut [u32])
    requires { ValidPattern (square_of a) × (length par.old ≡ a.ncols) × (length anc.old ≡ a.ncols) }
    ensures { par.new ≡ tree (columns (square_of a.entry)) }
{
    let n = a.ncols;
    fill(ROOT, n, par);
    fill(ROOT, n, anc);
    for k in 0..n {
        tree_column(k as u32, rows(a, k), par, anc);
    }
}
