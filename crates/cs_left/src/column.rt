// The steps of one column of the left factoring: what x gathers, and what the column of L becomes.
ghost use Rattle.std.specs.Prelude.{◌≡◌, true, ◌+◌, ◌≤◌, ◌<◌, length, get_or};
ghost use Rattle.lists.specs.Entries.{Entries, plus_at};
ghost use Rattle.lists.specs.Folds.{along, over};
ghost use Rattle.lists.specs.Order.{rises};
ghost use Rattle.cs_matrix.specs.Matrix.{column};
ghost use Rattle.cs_left.specs.Left.{put_at, quotients};
ghost use Rattle.cs_left.specs.Steps.{zero_at, add_held, advance, Crossings, Places};

use lists::numbers::wide;
use lists::sides::add_times;
use lists::tight::tight;

// What column k has of a list with one item for each entry: the part between its two pointers.
pub fn column<'a, T>(k: usize, p: &[u32], l: &'a [T]) -> &'a [T]
    requires { (k + 1 < length p.now) × (get_or p.now k 0 ≤ get_or p.now (k + 1) 0) × (get_or p.now (k + 1) 0 ≤ length l.now) }
    ensures { result.now ≡ column p.now k l.now }
{
    let s = wide(p[k]);
    let e = wide(p[k + 1]);
    &l[s..e]
}

// The stored values of rows at and below k are put into x.
pub fn load(k: usize, rows: &[u32], vals: &[f64], x: &mut [f64])
    requires { Entries (length x.old) rows.now vals.now }
    ensures { x.new ≡ over (put_at k) rows.now vals.now x.old }
{
    for (q, &row) in rows.iter().enumerate() {
        let z = wide(row);
        if z >= k {
            x[z] = vals[q];
        }
    }
}

// x(z) = x(z) + (value times f) for each row z. By place: a zip tests two ends at each row. The product has the same step and the next: each
// asks something of its slices, so that it cannot be public in a crate below both.
fn add_rows(rows: &[u32], vals: &[f64], f: f64, x: &mut [f64])
    requires { Entries (length x.old) rows.now vals.now }
    ensures { x.new ≡ over (plus_at f) rows.now vals.now x.old }
{
    for (q, &row) in rows.iter().enumerate() {
        let z = wide(row);
        x[z] += vals[q] * f;
    }
}

// The same for rows that rise: a run is one part of x. Few rows gain nothing by it.
fn scatter_add(rows: &[u32], vals: &[f64], f: f64, x: &mut [f64])
    requires { Entries (length x.old) rows.now vals.now × (rises rows.now ≡ true) }
    ensures { x.new ≡ over (plus_at f) rows.now vals.now x.old }
{
    if rows.len() > 7 && tight(rows) {
        let first = wide(rows[0]);
        add_times(vals, f, &mut x[first..first + vals.len()]);
    } else {
        add_rows(rows, vals, f, x);
    }
}

// Each j < k of U's column k, in its order: `next` has the place of row k in L's column j, and goes on behind it.
pub fn add_columns(
    k: usize,
    us: &[u32],
    lp: &[u32],
    li: &[u32],
    lx: &[f64],
    next: &mut [u32],
    x: &mut [f64],
)
    requires { Crossings k us.now lp.now li.now lx.now next.old (length x.old) }
    ensures { (x.new ≡ add_held k lp.now li.now lx.now us.now x.old)
        × (next.new ≡ along (advance k) us.now next.old) }
{
    for &u in us {
        let j = wide(u);
        if j < k {
            let s = wide(next[j]);
            let e = wide(lp[j + 1]);
            scatter_add(&li[s..e], &lx[s..e], -lx[s], x);
            next[j] += 1;
        }
    }
}

// Every row z of L's column becomes x(z) / d, after which x(z) = 0.
pub fn divide(d: f64, rows: &[u32], vals: &mut [f64], x: &mut [f64])
    requires { Places (length x.old) rows.now (length vals.old) }
    ensures { (vals.new ≡ quotients d rows.now x.old) × (x.new ≡ along zero_at rows.now x.old) }
{
    for (q, &row) in rows.iter().enumerate() {
        let z = wide(row);
        vals[q] = x[z] / d;
        x[z] = 0.0;
    }
}
