// A column of U: from each of its stored rows up the tree, until the column's number is passed or an index that is listed already.
// An index that is listed is marked by one more than the columns before it, so that no mark has to be taken back.
ghost use Rattle.std.specs.Prelude.{◌≡◌, ◌+◌, ◌<◌, ◌≤◌, true, [], ◌++◌, length, take, drop};
ghost use Rattle.lists.specs.Order.{rises};
ghost use Rattle.cs_tree.specs.Falling.{Reached};
ghost use Rattle.cs_tree.specs.Pattern.{paths};
ghost use Rattle.cs_tree.specs.Steps.{Walks, Marks, Roomy, Traced};

use lists::numbers::wide;

// Walks up from a row in the column that s columns came before, and marks what was not yet listed. It is listed in the front of out,
// which has room for it; the answer is how many there are.
fn trace(k: u32, s: u32, row: u32, par: &[u32], mark: &mut [u32], out: &mut [u32]) -> usize
    requires { (s < 65535) × Walks k par.now mark.old × Roomy s k par.now row mark.old out.old }
    ensures { (o : Roomy s k par.now row mark.old out.old)
        → Traced s k par.now row o.older result mark.new out.new }
{
    let stamp = s + 1;
    let mut c = row;
    let mut len = 0;
    // climbs by parents
    while c <= k {
        let i = wide(c);
        if mark[i] == stamp {
            return len;
        }
        mark[i] = stamp;
        out[len] = c;
        len += 1;
        c = par[i];
    }
    len
}

// Moves the first len elements up, so that they end at top. The answer is where they then start.
fn shift(len: usize, top: usize, out: &mut [u32]) -> usize
    requires { (len ≤ top) × (top ≤ length out.old) }
    ensures { (result + len ≡ top) × (drop result out.new ≡ take len out.old ++ drop top out.old) }
{
    let low = top - len;
    if low == 0 {
        return low;
    }
    for t in (0..len).rev() {
        out[low + t] = out[t];
    }
    low
}

// Column k of U, in out so that it ends at end: a stack filled downward, whose free front each way is listed in first. The answer is
// where it starts. The stored rows rise, so that the first past k ends them.
pub fn lay(
    k: u32,
    s: u32,
    rows: &[u32],
    par: &[u32],
    mark: &mut [u32],
    end: usize,
    out: &mut [u32],
) -> usize
    requires { (s < 65535) × Walks k par.now mark.old × Marks s mark.old [] × (end ≤ length out.old) × (length (paths par.now k rows.now []) ≤ end)
        × (rises rows.now ≡ true) }
    ensures { Reached s k par.now rows.now end out.old result mark.new out.new }
{
    let mut top = end;
    for &row in rows {
        if row > k {
            return top;
        }
        let len = trace(k, s, row, par, mark, &mut out[0..top]);
        top = shift(len, top, out);
    }
    top
}
