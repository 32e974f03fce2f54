// Rows that stand one after the other.
ghost use Rattle.std.specs.Prelude.{◌≡◌};
ghost use Rattle.lists.specs.Runs.{tight as tightOf};

use crate::numbers::wide;

// The last is as far behind the first as its place is: rows that rise are then a run.
pub fn tight(rows: &[u32]) -> bool
    ensures { result ≡ tightOf rows.now }
{
    let n = rows.len();
    if n == 0 {
        return false;
    }
    wide(rows[n - 1]) + 1 == wide(rows[0]) + n
}
