// The pointers of a matrix from columns that never fall. A column ends behind its last triplet, and where it has none it ends
// where the one before it does, so that nothing needs to be counted.
ghost use Rattle.std.specs.Prelude.{◌≡◌, ◌+◌, ◌≤◌, length};
ghost use Rattle.lists.specs.Calls.{onto};
ghost use Rattle.lists.specs.Keys.{by_key};
ghost use Rattle.lists.specs.Tables.{table};
ghost use Rattle.lists.specs.Keeping.{Zeros};
ghost use Rattle.cs_conversion.specs.InOrder.{Climbing, Placed, Ends, Raised};

use lists::clear::fill;
use lists::numbers::wide;

// The place behind each column's last triplet, into p one place behind the column's own.
fn mark_ends(cols: &[u32], p: &mut [u32])
    requires { Placed (length p.old) cols.now × Zeros p.old }
    ensures { Ends (length cols.now) cols.now p.new }
{
    for (k, &col) in cols.iter().enumerate() {
        p[wide(col) + 1] = (k + 1) as u32;
    }
}

// At each place the highest up to it.
fn raise(p: &mut [u32])
    ensures { Raised p.old p.new }
{
    let mut high = 0;
    for end in p.iter_mut() {
        high = high.max(*end);
        *end = high;
    }
}

// Where each column starts, all of p.
fn starts(cols: &[u32], p: &mut [u32])
    requires { Climbing cols.now × Placed (length p.old) cols.now × Zeros p.old }
    ensures { p.new ≡ table (length p.old) (λ c. length (by_key c cols.now cols.now)) }
{
    mark_ends(cols, p);
    raise(p);
}

// Where each of ncols columns starts, into the front of p, and behind them the end.
pub fn pointers(ncols: usize, cols: &[u32], p: &mut [u32])
    requires { Climbing cols.now × Placed (ncols + 1) cols.now × (ncols + 1 ≤ length p.old) }
    ensures { p.new ≡ onto p.old (table (ncols + 1) (λ c. length (by_key c cols.now cols.now))) }
{
    let m = ncols + 1;
    fill(0, m, p);
    starts(cols, &mut p[..m]);
}
