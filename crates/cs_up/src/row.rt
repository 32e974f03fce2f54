// Row k of L, column by column.
ghost use Rattle.std.specs.Prelude.{true, ◌≡◌, ◌+◌, length, get_or, set};
ghost use Rattle.std.specs.Float.{nan, binary64};
ghost use Rattle.std.specs.Float.Ieee.{sub, mul, div};
ghost use Rattle.lists.specs.Calls.{none};
ghost use Rattle.lists.specs.Entries.{Entries};
ghost use Rattle.lists.specs.Folds.{over};
ghost use Rattle.lists.specs.Order.{rises};
ghost use Rattle.lists.specs.Parts.{part};
ghost use Rattle.lists.specs.Runs.{zipped};
ghost use Rattle.cs_up.specs.Steps.{take_at, held, goes, way, Reads, Rows, Rowed};

use lists::numbers::wide;
use lists::tight::tight;

// x(r) = x(r) - (value times t) for each of the rows r. By place: a zip tests two ends at each row.
fn take_rows(t: f64, rows: &[u32], vals: &[f64], x: &mut [f64])
    requires { Entries (length x.old) rows.now vals.now }
    ensures { x.new ≡ over (take_at t) rows.now vals.now x.old }
{
    for (q, &row) in rows.iter().enumerate() {
        let r = wide(row);
        x[r] -= vals[q] * t;
    }
}

// The same, place by place. Lists' `add_times` adds; with the step as a closure it would ask what that answers, which no public function may.
fn take_run(t: f64, vals: &[f64], x: &mut [f64])
    ensures { x.new ≡ zipped (λ a v. sub binary64 a (mul binary64 v t)) x.old vals.now }
{
    let n = vals.len().min(x.len());
    for z in 0..n {
        x[z] -= vals[z] * t;
    }
}

// The same as take_rows: a run is one part of x. Few rows gain nothing by it.
fn take_column(t: f64, rows: &[u32], vals: &[f64], x: &mut [f64])
    requires { Entries (length x.old) rows.now vals.now × (rises rows.now ≡ true) }
    ensures { x.new ≡ over (take_at t) rows.now vals.now x.old }
{
    if rows.len() > 7 && tight(rows) {
        let first = wide(rows[0]);
        take_run(t, vals, &mut x[first..first + vals.len()]);
    } else {
        take_rows(t, rows, vals, x);
    }
}

// The value t of row k in column j, which lies from s to e with its diagonal first; it is put at e.
fn row_at(j: usize, s: usize, e: usize, li: &[u32], lx: &mut [f64], x: &mut [f64]) -> f64
    requires { Reads j s e li.now lx.old x.old }
    ensures { (result ≡ div binary64 (get_or x.old j nan) (get_or lx.old s nan))
        × (lx.new ≡ set lx.old e result)
        × (x.new ≡ over (take_at result) (part (s + 1) e li.now) (part (s + 1) e lx.old) (set x.old j none)) }
{
    let t = x[j] / lx[s];
    x[j] = 0.0;
    let a = s + 1;
    take_column(t, &li[a..e], &lx[a..e], x);
    lx[e] = t;
    t
}

// Each column that U's column k names above its diagonal gets its value of row k. The answer is what is left of the pivot.
pub fn rows_at(
    k: usize,
    us: &[u32],
    lp: &[u32],
    li: &[u32],
    lx: &mut [f64],
    next: &mut [u32],
    x: &mut [f64],
    first: f64,
) -> f64
    requires { Rows k us.now lp.now li.now lx.old next.old x.old }
    ensures { (way x.new result (held k lp.now next.new lx.new)
        ≡ goes k lp.now li.now us.now (way x.old first (held k lp.now next.old lx.old)))
        × Rowed k lp.now li.now next.new x.new }
{
    let mut pivot = first;
    for &u in us {
        let j = wide(u);
        if j < k {
            let e = next[j];
            let t = row_at(j, wide(lp[j]), wide(e), li, lx, x);
            next[j] = e + 1;
            pivot -= t * t;
        }
    }
    pivot
}
