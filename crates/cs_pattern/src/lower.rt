// A column of U put into L: its number goes before the later entries of each of its rows.
ghost use Rattle.cs_tree.specs.Falling.{Last, Left};

use lists::numbers::wide;

// Puts k before the later entries of each of the rows, the last row first; next has where the earlier ones end.
pub fn lower_column(k: u32, rows: &[u32], next: &mut [u32], li: &mut [u32])
    requires { Last k rows.now next.old li.old }
    ensures { (s : Last k rows.now next.old li.old)
        → Left k rows.now next.old li.old s next.new li.new 0 }
{
    for &row in rows.iter().rev() {
        let j = wide(row);
        let t = next[j] - 1;
        li[wide(t)] = k;
        next[j] = t;
    }
}
