// Number 9: a stored row below the diagonal that L's pattern has no place for.
ghost use Rattle.std.specs.Prelude.{◌≡◌, true, ◌+◌, ◌≤◌, length};
ghost use Rattle.lists.specs.Calls.{cleared};
ghost use Rattle.lists.specs.Order.{rises};
ghost use Rattle.cs_matrix.specs.Lent.{pattern_of};
ghost use Rattle.cs_pattern.specs.Lent.{analysis_of};
ghost use Rattle.cs_left.specs.Steps.{stray_in, stray_at, some_stray, Mirrors, Seeks, Sought};

use crate::column::column;
use crate::mirror::meet_columns;
use cs_matrix::matrix::Pattern;
use cs_pattern::compare::Analysis;
use lists::clear::fill;
use lists::numbers::wide;

// A row below k is absent from the rows held. Both lists rise, so that each search goes on behind the row found last.
fn stray(k: usize, rows: &[u32], held: &[u32]) -> bool
    requires { (rises rows.now ≡ true) × (rises held.now ≡ true) }
    ensures { result ≡ stray_in k held.now rows.now }
{
    let mut rest = held.iter();
    for &row in rows {
        if wide(row) > k && !rest.any(|&h| h == row) {
            return true;
        }
    }
    false
}

// Column k has such a row. Where all its rows are met none is sought.
fn stray_at(k: usize, a: Pattern<'_>, given: Analysis<'_>, next: &[u32]) -> bool
    requires { Seeks k (pattern_of a) (analysis_of given) next.now }
    ensures { result ≡ stray_at (pattern_of a.entry) (analysis_of given.entry) k }
{
    let Pattern { p, i, .. } = a;
    let Analysis { lp, li, .. } = given;
    if next[k] == p[k + 1] {
        return false;
    }
    stray(k, column(k, p, i), column(k, lp, li))
}

// Some column has.
fn some_stray(a: Pattern<'_>, given: Analysis<'_>, next: &[u32]) -> bool
    requires { let a = pattern_of a in
        Sought a (analysis_of given) (length next.now) × Mirrors a.ncols a.p a.i next.now }
    ensures { result ≡ some_stray (pattern_of a.entry) (analysis_of given.entry) }
{
    (0..a.ncols).any(|k| stray_at(k, a, given, next))
}

// The same, once all rows are met that can be.
fn seek(a: Pattern<'_>, given: Analysis<'_>, next: &mut [u32]) -> bool
    requires { Sought (pattern_of a) (analysis_of given) (length next.old) }
    ensures { result ≡ some_stray (pattern_of a.entry) (analysis_of given.entry) }
{
    meet_columns(a, next);
    some_stray(a, given, next)
}

// The same, with scratch, the needed part of which is left zeros.
pub fn strays(a: Pattern<'_>, given: Analysis<'_>, w: &mut [u32]) -> bool
    requires { Sought (pattern_of a) (analysis_of given) a.ncols × (a.ncols ≤ length w.old) }
    ensures { (result ≡ some_stray (pattern_of a.entry) (analysis_of given.entry)) × (w.new ≡ cleared 0 (a.entry.ncols + 1) w.old) }
{
    let n = a.ncols;
    let found = seek(a, given, &mut w[0..n]);
    fill(0, n + 1, w);
    found
}
