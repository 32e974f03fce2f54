// Two rising columns merged: once to count the different rows, once to write them.
ghost use Rattle.std.specs.Prelude.{map, ◌≡◌, ◌+◌, length};
ghost use Rattle.lists.specs.Choices.{chosen};
ghost use Rattle.cs_columns.specs.Columns.{either, laid};
ghost use Rattle.cs_sum.specs.Steps.{Risen, Column};
ghost use Rattle.cs_sum.specs.Sum.{summed_at};

use crate::alike::{add_values, same_rows};
use cs_columns::rows::row_at;

// How many different rows two columns have. A merge moves two positions apart, which no `for` counts. With a match on `cmp` in place of the two
// tests, here and in `walk`, the sum of columns with different rows took 50 to 70 percent longer.
pub fn count_rows(ai: &[u32], bi: &[u32]) -> usize
    requires { Risen 65535 ai.now bi.now }
    ensures { result ≡ length (chosen 65535 (either ai.now bi.now)) }
{
    let mut count = 0;
    let mut ka = 0;
    let mut kb = 0;
    while ka < ai.len() || kb < bi.len() {
        let r = row_at(ai, ka);
        let s = row_at(bi, kb);
        if r < s {
            ka += 1;
        } else if s < r {
            kb += 1;
        } else {
            ka += 1;
            kb += 1;
        }
        count += 1;
    }
    count
}

// The rows of two columns with their sums, written from `start` on, row by row. The answer is the place behind them. Here too two
// positions move apart.
fn walk(
    start: usize,
    ai: &[u32],
    av: &[f64],
    bi: &[u32],
    bv: &[f64],
    oi: &mut [u32],
    ov: &mut [f64],
) -> usize
    requires { Column 65535 start ai.now av.now bi.now bv.now oi.old ov.old }
    ensures { let rows = chosen 65535 (either ai.now bi.now) in
        let vals = map (summed_at ai.now av.now bi.now bv.now) rows in
        (result ≡ start + length rows) × (oi.new ≡ laid start oi.old rows) × (ov.new ≡ laid start ov.old vals) }
{
    let mut at = start;
    let mut ka = 0;
    let mut kb = 0;
    let mut r = row_at(ai, 0);
    let mut s = row_at(bi, 0);
    while ka < ai.len() || kb < bi.len() {
        if r < s {
            oi[at] = r;
            ov[at] = av[ka] * 1.0;
            ka += 1;
            r = row_at(ai, ka);
        } else if s < r {
            oi[at] = s;
            ov[at] = bv[kb] * 1.0;
            kb += 1;
            s = row_at(bi, kb);
        } else {
            oi[at] = r;
            ov[at] = av[ka] * 1.0 + bv[kb] * 1.0;
            ka += 1;
            kb += 1;
            r = row_at(ai, ka);
            s = row_at(bi, kb);
        }
        at += 1;
    }
    at
}

// The same, where columns that have the same rows are taken side by side.
pub fn merge(
    start: usize,
    ai: &[u32],
    av: &[f64],
    bi: &[u32],
    bv: &[f64],
    oi: &mut [u32],
    ov: &mut [f64],
) -> usize
    requires { Column 65535 start ai.now av.now bi.now bv.now oi.old ov.old }
    ensures { let rows = chosen 65535 (either ai.now bi.now) in
        let vals = map (summed_at ai.now av.now bi.now bv.now) rows in
        (result ≡ start + length rows) × (oi.new ≡ laid start oi.old rows) × (ov.new ≡ laid start ov.old vals) }
{
    if same_rows(ai, bi) {
        let end = start + ai.len();
        add_values(ai, av, bv, &mut oi[start..end], &mut ov[start..end]);
        return end;
    }
    walk(start, ai, av, bi, bv, oi, ov)
}
