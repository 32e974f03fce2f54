// Which stored rows below the diagonal have their mirror stored above it. L has a place for each of those, so that number 9 need
// not look for them there. `next` has, for each column walked, the place of its first row below the diagonal that is not yet met.
ghost use Rattle.std.specs.Prelude.{◌≡◌, ◌<◌, length};
ghost use Rattle.cs_left.specs.Steps.{Within, Rises, Mirrors, Meets, Walked, meet_at};

use cs_matrix::matrix::Pattern;
use lists::numbers::wide;

// Column c stores row r: the next row of column r is met if it is c.
fn meet(r: usize, c: usize, a: Pattern<'_>, next: &mut [u32])
    requires { Within r a.p.now a.i.now × (r < length next.old) }
    ensures { next.new ≡ meet_at c a.entry.p.now a.entry.i.now r next.old }
{
    let Pattern { p, i, .. } = a;
    let s = wide(next[r]);
    let e = wide(p[r + 1]);
    if s < e && wide(i[s]) == c {
        next[r] += 1;
    }
}

// The rows of column c down to its diagonal, which itself meets nothing that stays. The answer is the place behind them.
fn meet_rows(c: usize, a: Pattern<'_>, next: &mut [u32]) -> u32
    requires { Meets c a.p.now a.i.now next.old }
    ensures { Walked c a.entry.p.now a.entry.i.now next.new result }
{
    let Pattern { p, i, .. } = a;
    let end = p[c + 1];
    for q in p[c]..end {
        let r = wide(i[wide(q)]);
        if r > c {
            return q;
        }
        meet(r, c, a, next);
    }
    end
}

// All columns, rising.
pub fn meet_columns(a: Pattern<'_>, next: &mut [u32])
    requires { Rises a.ncols a.p.now a.i.now × (length next.old ≡ a.ncols) }
    ensures { Mirrors a.entry.ncols a.entry.p.now a.entry.i.now next.new }
{
    for c in 0..a.ncols {
        next[c] = meet_rows(c, a, next);
    }
}
