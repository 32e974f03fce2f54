// The columns of U, each laid before the later ones, and with each of them its entries in L.
ghost use Rattle.std.specs.Prelude.{◌≡◌, length};
ghost use mathlib.Core.List.{flatten};
ghost use Rattle.lists.specs.Calls.{onto};
ghost use Rattle.lists.specs.Keeping.{Zeros};
ghost use Rattle.cs_matrix.specs.Matrix.{ValidPattern};
ghost use Rattle.cs_tree.specs.Falling.{Ample};
ghost use Rattle.cs_tree.specs.Pattern.{upper, lower, starts};
ghost use Rattle.cs_tree.specs.Steps.{Given};
ghost use Rattle.cs_pattern.specs.Columns.{columns};
ghost use Rattle.cs_pattern.specs.Lent.{square_of};

use crate::lower::lower_column;
use crate::reach::lay;
use crate::rows::rows;
use cs_matrix::matrix::Pattern;

// The columns of U in ui and their pointers in up, and each entry put into L, from the last column to the first. U has t entries, and
// next has where each column of L ends.
pub fn fill_columns(
    a: Pattern<'_>,
    t: usize,
    par: &[u32],
    mark: &mut [u32],
    up: &mut [u32],
    ui: &mut [u32],
    next: &mut [u32],
    li: &mut [u32],
)
    requires { let cols = columns (square_of a) in
        ValidPattern (square_of a) × Given cols par.now × (length mark.old ≡ a.ncols) × Zeros mark.old
        × Ample cols t up.old ui.old next.old li.old }
    ensures { let cols = columns (square_of a.entry) in
        (up.new ≡ onto up.old (starts 0 (upper cols))) × (ui.new ≡ onto ui.old (flatten (upper cols)))
        × (li.new ≡ onto li.old (flatten (lower cols))) }
{
    let n = a.ncols;
    up[n] = t as u32;
    let mut top = t;
    for k in (0..n).rev() {
        let s = n - k - 1;
        let low = lay(k as u32, s as u32, rows(a, k), par, mark, top, ui);
        lower_column(k as u32, &ui[low..top], next, li);
        up[k] = low as u32;
        top = low;
    }
}
