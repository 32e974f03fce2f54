// A column between its pointers, and the start of one: its stored values at and above the diagonal.
ghost use Rattle.std.specs.Prelude.{◌≡◌, ◌+◌, ◌≤◌, ◌<◌, length, get_or, set};
ghost use Rattle.std.specs.Float.{nan};
ghost use Rattle.lists.specs.Calls.{none};
ghost use Rattle.lists.specs.Folds.{over};
ghost use Rattle.cs_matrix.specs.Matrix.{column};
ghost use Rattle.cs_up.specs.Steps.{Loads};
ghost use Rattle.cs_up.specs.Up.{put_at};

use lists::numbers::wide;
use std::mem;

// What column k has of a list with one item for each entry: the part between its two pointers.
pub fn column<'a, T>(k: usize, p: &[u32], l: &'a [T]) -> &'a [T]
    requires { (k + 1 < length p.now) × (get_or p.now k 0 ≤ get_or p.now (k + 1) 0) × (get_or p.now (k + 1) 0 ≤ length l.now) }
    ensures { result.now ≡ column p.now k l.now }
{
    let s = wide(p[k]);
    let e = wide(p[k + 1]);
    &l[s..e]
}

// Puts the stored values of rows at and above k into x; rows that rise are past k from the first one on.
fn load(k: usize, rows: &[u32], vals: &[f64], x: &mut [f64])
    requires { Loads k rows.now vals.now x.old }
    ensures { x.new ≡ over (put_at k) rows.now vals.now x.old }
{
    for (q, &row) in rows.iter().enumerate() {
        let i = wide(row);
        if i > k {
            return;
        }
        x[i] = vals[q];
    }
}

// What the pivot starts as, taken out of x.
pub fn start(k: usize, rows: &[u32], vals: &[f64], x: &mut [f64]) -> f64
    requires { Loads k rows.now vals.now x.old }
    ensures { let y = over (put_at k) rows.now vals.now x.old in
        (result ≡ get_or y k nan) × (x.new ≡ set y k none) }
{
    load(k, rows, vals, x);
    mem::replace(&mut x[k], 0.0)
}
