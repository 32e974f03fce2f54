// How many entries each row of U has, that is each column of L: from each stored row of a column up the tree, with a count where an
// index is marked. An index that is counted in column k is marked by k + 1.
ghost use Rattle.std.specs.Prelude.{◌≡◌, ◌<◌, ◌≤◌, true, [], length, MatchOption};
ghost use Rattle.lists.specs.Keeping.{Kept, Zeros};
ghost use Rattle.lists.specs.Order.{rises};
ghost use Rattle.cs_matrix.specs.Matrix.{ValidPattern};
ghost use Rattle.cs_tree.specs.Bumps.{Bumped, Tallied};
ghost use Rattle.cs_tree.specs.Pattern.{upper, entries};
ghost use Rattle.cs_tree.specs.Steps.{Walks, Marks, Given};
ghost use Rattle.cs_pattern.specs.Columns.{columns};
ghost use Rattle.cs_pattern.specs.Lent.{square_of};
ghost use Rattle.cs_pattern.specs.Steps.{Counted};

use crate::rows::rows;
use cs_matrix::matrix::{MAX_ENTRIES, Pattern};
use lists::numbers::wide;

// Walks up from a row, marks what was not yet listed and counts it. The answer is how many there are.
fn count_walk(k: u32, row: u32, par: &[u32], mark: &mut [u32], counts: &mut [u32]) -> usize
    requires { Walks k par.now mark.old × (k < length counts.old) }
    ensures { Bumped k par.now row result mark.old mark.new counts.old counts.new }
{
    let top = wide(k);
    let stamp = k + 1;
    let mut i = wide(row);
    let mut len = 0;
    // climbs by parents
    while i <= top {
        if mark[i] == stamp {
            return len;
        }
        mark[i] = stamp;
        counts[i] = counts[i].wrapping_add(1);
        len += 1;
        i = wide(par[i]);
    }
    len
}

// One more at each row of column k of U. The answer is how many there are. The stored rows rise, so that the first past k ends them.
fn count_column(k: u32, rows: &[u32], par: &[u32], mark: &mut [u32], counts: &mut [u32]) -> usize
    requires { Walks k par.now mark.old × Marks k mark.old [] × (length rows.now ≤ 4194304) × (k < length counts.old) × (rises rows.now ≡ true) }
    ensures { Tallied k par.now rows.now result mark.new counts.old counts.new }
{
    let mut count = 0;
    for &row in rows {
        if row > k {
            return count;
        }
        count += count_walk(k, row, par, mark, counts);
    }
    count
}

// One more in counts at the row of each entry of U. The answer is how many there are, or none where there are more than a matrix may
// have; the counting stops once it has passed that.
pub fn count_rows(
    a: Pattern<'_>,
    par: &[u32],
    mark: &mut [u32],
    counts: &mut [u32],
) -> Option<usize>
    requires { ValidPattern (square_of a) × Given (columns (square_of a)) par.now
        × (length mark.old ≡ a.ncols) × Zeros mark.old × (a.ncols ≤ length counts.old) }
    ensures { let us = upper (columns (square_of a.entry)) in
        MatchOption result (4194304 < entries us) (Counted us counts.old counts.new)
        × Kept 0 a.entry.ncols counts.old counts.new }
{
    let mut total = 0;
    for k in 0..a.ncols {
        total += count_column(k as u32, rows(a, k), par, mark, counts);
        if total > MAX_ENTRIES {
            return None;
        }
    }
    Some(total)
}
